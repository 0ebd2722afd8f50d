// What a bundle offers to others.
use kinds::version::Version;

// One exported package, as it is asked of a shelf: the name is a part of what the shelf holds.
#[derive(Clone, Copy, PartialEq, Eq, Debug, Default)]
pub struct Export<'a> {
    pub name: &'a [u8],
    pub version: Version,
}
