// What the clauses and manifests of a directory are read as; each name is a part of the text. Exports and used names that are not given
// are `None`: an `ArrayVec` is as long empty as full, and an index of blank ones would cost more to make than many a directory to read.
use arrayvec::ArrayVec;
use kinds::controller::ControllerNumber;
use kinds::range::Range;
use kinds::version::Version;
use shelf::limits::{EXPORTS, NEEDS, USES};
use shelf::need::Need;

#[derive(Drop, Default)]
pub struct ExportEntry<'a> {
    pub name: &'a [u8],
    pub version: Version,
    pub uses: Option<ArrayVec<&'a [u8], USES>>,
}

// It owns its lists, where the plain bundle of `shelf` lends them: one type over both would take two parameters for who holds the lists,
// with a bound on each.
#[derive(Drop, Default)]
pub struct BundleEntry<'a> {
    pub name: &'a [u8],
    pub version: Version,
    pub controllers: Range<ControllerNumber>,
    pub exports: Option<ArrayVec<ExportEntry<'a>, EXPORTS>>,
    pub needs: ArrayVec<Need<'a>, NEEDS>,
}
