// The model of the first kind, with eight states at most: its limits, what is refused of it, and its file. Each public call takes any
// numbers, any bytes and any lent slice.
#![tactic(auto)]

mod bounds;
mod checked;
mod fields;
mod file;
mod refusals;

ghost use Rattle.std.specs.Prelude.{min, ◌≡◌};
ghost use Rattle.model.specs.Reader.{ReadsFile};

pub use checked::Checked;
pub use refusals::{Fault, Refusal};

// n states, k events, and a bit for each start state and for each home state. The arrows stand beside it, a number for each event:
// bit 8·p+q for an arrow from p to q.
#[derive(Clone, Copy)]
pub struct Model {
    pub n: usize,
    pub k: usize,
    pub start: u8,
    pub home: u8,
}

impl Model {
    // At most so many of each: the limits of this kind.
    pub const STATES: usize = 8;

    pub const EVENTS: usize = 16;

    pub const SETS: usize = 256;

    pub const PROFILES: usize = 2048;
}

// The smaller of two numbers: a room is the least of its slices and the limit.
pub fn least(a: usize, b: usize) -> usize
    ensures { result ≡ min a b }
{
    a.min(b)
}

// Reads a model file field by field, up to the first that is wrong. The arrow numbers go to the lent slice when all is right. Takes any
// bytes and any slice.
pub fn read(file: &[u8], arrows: &mut [u64]) -> Result<Model, Fault>
    ensures { ReadsFile file.now arrows.old arrows.new result }
{
    let front = file::front(file, arrows.len());
    let Ok(model) = front else {
        return front;
    };
    let n = model.n;
    let k = model.k;
    let mut numbers = [0u64; Model::EVENTS];
    for a in 0..k {
        let event = fields::event_at(file, n, a);
        let Ok(number) = event else {
            return Err(event.unwrap_err());
        };
        numbers[a] = number;
    }
    let end = fields::end_at(file, fields::event_offset(n, k));
    let Ok(_) = end else {
        return Err(end.unwrap_err());
    };
    arrows[..k].copy_from_slice(&numbers[..k]);
    Ok(model)
}
