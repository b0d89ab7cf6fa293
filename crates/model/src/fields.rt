// The fields of a model file, each read at the offset where it must begin: its value, or its fault.
ghost use Rattle.std.specs.Prelude.{◌+◌, ◌≤◌, ◌<◌, ◌≡◌, length};
ghost use Rattle.laws.specs.Bits.{from_rows};
ghost use Rattle.laws.specs.File.{offset_of_event, stand_from, formed, value, masks, number_checks, mask_checks, event_checks, end_checks};
ghost use Rattle.model.specs.Fields.{IsField, form_checks};

use crate::bounds::{is_outside, row_beyond, some_mask_beyond};
use crate::{Fault, Model, Refusal};

// The tags of the fields before the end field.
pub const TAG_N: u8 = 0x01;

pub const TAG_K: u8 = 0x02;

pub const TAG_START: u8 = 0x03;

pub const TAG_HOME: u8 = 0x04;

const TAG_EVENT: u8 = 0x05;

// The head of a field is its tag and two bytes of length.
const HEAD: usize = 3;

// The end field is a head and nothing behind it, byte for byte.
const END: [u8; 3] = [0x7F, 0x00, 0x00];

// The value of a field, a byte or an event's arrow number, or its fault.
pub type Field<T> = Result<T, Fault>;

// From an offset on stand exactly these bytes.
fn stand_at(file: &[u8], at: usize, bytes: [u8; 3]) -> bool
    requires { at ≤ 65535 }
    ensures { result ≡ stand_from file.now at bytes }
{
    at + HEAD <= file.len() && file[at..at + HEAD] == bytes[..]
}

// At an offset stands a field with this tag and length, not cut short.
fn is_formed(file: &[u8], at: usize, tag: u8, size: usize) -> bool
    requires { (at ≤ 65535) × (size ≤ 65535) }
    ensures { result ≡ formed file.now at tag size }
{
    let low = (size % 256) as u8;
    let high = (size / 256 % 256) as u8;
    stand_at(file, at, [tag, low, high]) && at + HEAD + size <= file.len()
}

// The byte of a field of one byte.
fn byte_at(file: &[u8], at: usize, tag: u8) -> Field<u8>
    requires { at ≤ 65535 }
    ensures { IsField 8 (form_checks file.now at tag) (value file.now at) result }
{
    if !is_formed(file, at, tag, 1) {
        return Err(Refusal::BrokenForm.at(at));
    }
    Ok(file[at + HEAD])
}

// A field of one byte that holds a number from 1 to `most`.
pub(crate) fn number_at(file: &[u8], at: usize, tag: u8, most: usize) -> Field<u8>
    requires { at ≤ 65535 }
    ensures { IsField 8 (number_checks file.now at tag most) (value file.now at) result }
{
    let number = byte_at(file, at, tag)?;
    if is_outside(most, number as usize) {
        return Err(Refusal::OutsideRange.at(at));
    }
    Ok(number)
}

// A field of one byte that holds a mask of n states.
pub(crate) fn mask_at(file: &[u8], at: usize, tag: u8, n: usize) -> Field<u8>
    requires { (at ≤ 65535) × (n ≤ 8) }
    ensures { IsField 8 (mask_checks file.now at tag n) (value file.now at) result }
{
    let mask = byte_at(file, at, tag)?;
    if row_beyond(n, mask) {
        return Err(Refusal::MissingState.at(at));
    }
    Ok(mask)
}

// Where the field of event a begins, or behind the last event the end field.
pub(crate) fn event_offset(n: usize, a: usize) -> usize
    requires { (n ≤ 8) × (a ≤ 16) }
    ensures { (result ≡ offset_of_event n a) × (result ≤ 208) }
{
    16 + a * (n + 4)
}

// The masks as one number, mask p in row p.
fn packed(masks: &[u8]) -> u64
    requires { length masks.now ≤ 8 }
    ensures { result ≡ from_rows 8 masks.now }
{
    let mut rows = [0u8; Model::STATES];
    rows[..masks.len()].copy_from_slice(masks);
    u64::from_le_bytes(rows)
}

// The field of event a: its arrow number.
pub(crate) fn event_at(file: &[u8], n: usize, a: usize) -> Field<u64>
    requires { (n ≤ 8) × (a < 16) }
    ensures { IsField 64 (event_checks file.now n a) (from_rows 8 (masks file.now n a)) result }
{
    let at = event_offset(n, a);
    if !is_formed(file, at, TAG_EVENT, n + 1) || file[at + HEAD] as usize != a {
        return Err(Refusal::BrokenForm.at(at));
    }
    let masks = &file[at + 4..at + 4 + n];
    if some_mask_beyond(n, masks) {
        return Err(Refusal::MissingState.at(at));
    }
    Ok(packed(masks))
}

// The end field, behind which nothing follows.
pub(crate) fn end_at(file: &[u8], at: usize) -> Field<u64>
    requires { at ≤ 65535 }
    ensures { IsField 8 (end_checks file.now at) 0 result }
{
    if !stand_at(file, at, END) {
        return Err(Refusal::BrokenForm.at(at));
    }
    if at + HEAD < file.len() {
        return Err(Refusal::BrokenForm.at(at + HEAD));
    }
    Ok(0)
}
