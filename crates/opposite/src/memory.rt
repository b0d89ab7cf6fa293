// The slices that are lent for the opposite.

// For its arrows the states from which and to which they lead and their events, and for each state a flag.
#[derive(Drop)]
pub struct OppositeMemory<'a> {
    pub from: &'a mut [u16],
    pub event: &'a mut [u8],
    pub to: &'a mut [u16],
    pub flags: &'a mut [u8],
}
