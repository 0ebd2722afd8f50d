// A shelf that is lent is a shelf.
use crate::export::Export;
use crate::need::Need;
use crate::shelf::Shelf;
use kinds::controller::ControllerNumber;
use kinds::range::Range;
use kinds::version::Version;

impl<S: Shelf> Shelf for &S {
    ghost meaning = { λ s. S.Shelf.meaning s.now };

    ghost formed = { λ s. S.Shelf.formed s.now };

    fn count(&self) -> usize {
        (**self).count()
    }

    fn present(&self, place: usize) -> bool {
        (**self).present(place)
    }

    fn name(&self, place: usize) -> Option<&[u8]> {
        (**self).name(place)
    }

    fn version(&self, place: usize) -> Option<Version> {
        (**self).version(place)
    }

    fn controllers(&self, place: usize) -> Option<Range<ControllerNumber>> {
        (**self).controllers(place)
    }

    fn export(&self, place: usize, j: usize) -> Option<Export<'_>> {
        (**self).export(place, j)
    }

    fn used(&self, place: usize, j: usize, k: usize) -> Option<&[u8]> {
        (**self).used(place, j, k)
    }

    fn need(&self, place: usize, k: usize) -> Option<Need<'_>> {
        (**self).need(place, k)
    }
}
