// What is asked of any shelf, proved once against its meaning: methods of the trait would be proved anew by each shelf that replaces them.
ghost use Rattle.std.specs.Prelude.{◌≡◌, Decides, MatchBool};
ghost use Rattle.shelf.specs.Looked.{ExportsAt, Found, Named, Only, Own};

use crate::limits::EXPORTS;
use crate::need::NeedKind;
use crate::shelf::Shelf;
use text::bytes::same_text;

// Whether two names are the same.
pub fn same_name(a: &[u8], b: &[u8]) -> bool
    ensures { Decides result (a.now ≡ b.now) }
{
    same_text(a, b)
}

// The bundle at a place of a shelf, if one is there.
#[derive_where(Clone, Copy)]
pub struct At<'s, S> {
    pub shelf: &'s S,
    pub place: usize,
}

impl<'s, S: Shelf> At<'s, S> {
    // Whether there is a bundle of that name.
    pub fn is_named(&self, name: &[u8]) -> bool
        ensures { Decides result (Named (S.Shelf.meaning self.now.shelf.now) self.now.place name.now) }
    {
        self.shelf
            .name(self.place)
            .is_some_and(|own| same_name(own, name))
    }

    // Which of its exports is of that package.
    pub fn export_named(&self, name: &[u8]) -> Option<usize>
        ensures { Found (S.Shelf.meaning self.now.shelf.now) self.now.place name.now result }
    {
        (0..EXPORTS).find(|j| self.is_export(*j, name))
    }

    // Whether export j is of that package: then no other is.
    fn is_export(&self, j: usize, name: &[u8]) -> bool
        ensures { MatchBool result (Only (S.Shelf.meaning self.now.shelf.now) self.now.place name.now j) (ExportsAt (S.Shelf.meaning self.now.shelf.now) self.now.place j name.now → ⊥) }
    {
        self.shelf
            .export(self.place, j)
            .is_some_and(|export| same_name(export.name, name))
    }

    // Whether need k is an import of a package that the bundle exports itself.
    pub fn is_own_import(&self, k: usize) -> bool
        ensures { Decides result (Own (S.Shelf.meaning self.now.shelf.now) self.now.place k) }
    {
        let Some(need) = self.shelf.need(self.place, k) else {
            return false;
        };
        matches!(need.kind, NeedKind::Import) && self.export_named(need.name).is_some()
    }
}
