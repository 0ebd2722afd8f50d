// Clauses while they are read: each text is a part of the value.
use shelf::need::{Resolution, Visibility};

// What a clause says, each parameter if it is given.
#[derive(Clone, Copy, Default)]
pub struct RawEntry<'a> {
    pub name: &'a [u8],
    pub version: Option<&'a [u8]>,
    pub uses: Option<&'a [u8]>,
    pub resolution: Option<Resolution>,
    pub visibility: Option<Visibility>,
}

// One parameter.
#[derive(Clone, Copy)]
pub enum Part<'a> {
    Version(&'a [u8]),
    Uses(&'a [u8]),
    Resolution(Resolution),
    Visibility(Visibility),
}
