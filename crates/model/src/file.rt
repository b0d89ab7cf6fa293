// The first part of reading a model file: the four fields before the events.
ghost use Rattle.model.specs.Reader.{IsFront};

use crate::fields::{TAG_HOME, TAG_K, TAG_N, TAG_START, mask_at, number_at};
use crate::{Fault, Model, Refusal};

// The four fields before the events: n, k, and the masks of start and home states.
pub(crate) fn front(file: &[u8], room: usize) -> Result<Model, Fault>
    ensures { IsFront file.now room result }
{
    let first = number_at(file, 0, TAG_N, Model::STATES);
    let Ok(n) = first else {
        return Err(first.unwrap_err());
    };
    let second = number_at(file, 4, TAG_K, Model::EVENTS);
    let Ok(k) = second else {
        return Err(second.unwrap_err());
    };
    if room < k as usize {
        return Err(Refusal::FewArrows.at(4));
    }
    let third = mask_at(file, 8, TAG_START, n as usize);
    let Ok(start) = third else {
        return Err(third.unwrap_err());
    };
    let fourth = mask_at(file, 12, TAG_HOME, n as usize);
    let Ok(home) = fourth else {
        return Err(fourth.unwrap_err());
    };
    Ok(Model {
        n: n as usize,
        k: k as usize,
        start,
        home,
    })
}
