// Plain values that a caller fills in, to make a shelf of them.
use crate::need::Need;
use kinds::controller::ControllerNumber;
use kinds::range::Range;
use kinds::version::Version;

#[derive(Clone, Copy, PartialEq, Eq, Debug, Default)]
pub struct PlainExport<'a> {
    pub name: &'a [u8],
    pub version: Version,
    pub uses: &'a [&'a [u8]],
}

#[derive(Clone, Copy, PartialEq, Eq, Debug, Default)]
pub struct PlainBundle<'a> {
    pub name: &'a [u8],
    pub version: Version,
    pub controllers: Range<ControllerNumber>,
    pub exports: &'a [PlainExport<'a>],
    pub needs: &'a [Need<'a>],
}
