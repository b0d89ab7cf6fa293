// The tables of full size that every call is lent: before it each place holds 9.
use model::Model;

#[derive(Drop)]
pub struct Tables {
    pub set_masks: [u8; Model::SETS],
    pub set_from: [u16; Model::SETS],
    pub set_event: [u8; Model::SETS],
    pub profile_arrows: [u64; Model::PROFILES],
    pub profile_marks: [u64; Model::PROFILES],
    pub profile_from: [u16; Model::PROFILES],
    pub profile_event: [u8; Model::PROFILES],
}

impl Tables {
    pub(crate) const FILLED: Tables = Tables {
        set_masks: [9; Model::SETS],
        set_from: [9; Model::SETS],
        set_event: [9; Model::SETS],
        profile_arrows: [9; Model::PROFILES],
        profile_marks: [9; Model::PROFILES],
        profile_from: [9; Model::PROFILES],
        profile_event: [9; Model::PROFILES],
    };
}
