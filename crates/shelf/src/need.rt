// What a bundle needs of others.
use kinds::range::Range;
use kinds::version::Version;

// Whether a bundle can do without it.
#[derive(Clone, Copy, PartialEq, Eq, Debug, Default)]
pub enum Resolution {
    #[default]
    Mandatory,
    Optional,
}

// Whether what a bundle requires is shown on to those that require it.
#[derive(Clone, Copy, PartialEq, Eq, Debug, Default)]
pub enum Visibility {
    #[default]
    Private,
    Reexport,
}

// A package from whoever exports it, or all that a named bundle exports.
#[derive(Clone, Copy, PartialEq, Eq, Debug, Default)]
pub enum NeedKind {
    #[default]
    Import,
    Require(Visibility),
}

// One need, as it is asked of a shelf: the name is a part of what the shelf holds.
#[derive(Clone, Copy, PartialEq, Eq, Debug, Default)]
pub struct Need<'a> {
    pub kind: NeedKind,
    pub name: &'a [u8],
    pub range: Range<Version>,
    pub resolution: Resolution,
}
