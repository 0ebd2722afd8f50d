// What an opened directory answers: each question is a look at the index.
ghost use Rattle.std.specs.Prelude.{◌≡◌};
ghost use Rattle.std.specs.Option.{option_map};
ghost use Rattle.shelf.specs.Meaning.{bundle_at, export_at};
ghost use Rattle.manifest.specs.Index.{bundle_in, export_in};
ghost use Rattle.manifest.specs.Shelves.{meaning_of, shelf-formed};

use super::ManifestShelf;
use crate::entry::{BundleEntry, ExportEntry};
use kinds::controller::ControllerNumber;
use kinds::range::Range;
use kinds::version::Version;
use shelf::export::Export;
use shelf::need::Need;
use shelf::shelf::Shelf;

impl<'a> ManifestShelf<'a> {
    // The bundle at a place, if one is there.
    fn bundle(&self, place: usize) -> Option<&BundleEntry<'a>>
        ensures { option_map (λ b. bundle_in b.now) result ≡ bundle_at (meaning_of self.now) place }
    {
        self.bundles.get(place)
    }

    // Its export j, if there is one.
    fn export_entry(&self, place: usize, j: usize) -> Option<&ExportEntry<'a>>
        ensures { option_map (λ e. export_in e.now) result ≡ export_at (meaning_of self.now) place j }
    {
        self.bundle(place)?.exports.as_ref()?.get(j)
    }
}

impl Shelf for ManifestShelf<'_> {
    ghost meaning = { meaning_of };

    ghost formed = { shelf-formed };

    fn count(&self) -> usize {
        self.bundles.len()
    }

    fn present(&self, place: usize) -> bool {
        self.bundle(place).is_some()
    }

    fn name(&self, place: usize) -> Option<&[u8]> {
        Some(self.bundle(place)?.name)
    }

    fn version(&self, place: usize) -> Option<Version> {
        Some(self.bundle(place)?.version)
    }

    fn controllers(&self, place: usize) -> Option<Range<ControllerNumber>> {
        Some(self.bundle(place)?.controllers)
    }

    fn export(&self, place: usize, j: usize) -> Option<Export<'_>> {
        let export = self.export_entry(place, j)?;
        Some(Export {
            name: export.name,
            version: export.version,
        })
    }

    fn used(&self, place: usize, j: usize, k: usize) -> Option<&[u8]> {
        self.export_entry(place, j)?.uses.as_ref()?.get(k).copied()
    }

    fn need(&self, place: usize, k: usize) -> Option<Need<'_>> {
        self.bundle(place)?.needs.get(k).copied()
    }
}
