// The slices that are lent for the two tables.

// For the sets: a set's mask, the number of the set it came from, and its last event.
#[derive(Drop)]
pub struct SetMemory<'a> {
    pub masks: &'a mut [u8],
    pub from: &'a mut [u16],
    pub event: &'a mut [u8],
}

// For the profiles: a profile's arrows and marks, the number of the profile it came from, and its last event.
#[derive(Drop)]
pub struct ProfileMemory<'a> {
    pub arrows: &'a mut [u64],
    pub marks: &'a mut [u64],
    pub from: &'a mut [u16],
    pub event: &'a mut [u8],
}
