// A shelf of plain values, lent by the caller.
ghost use Rattle.std.specs.Prelude.{◌≡◌, [], is_ok, if◌then◌else◌, IfOk, MatchResult};
ghost use Rattle.std.specs.Option.{option_map};
ghost use Rattle.shelf.specs.Kept.{kept};
ghost use Rattle.shelf.specs.Meaning.{WellFormed, bundle_at, export_at};
ghost use Rattle.shelf.specs.Plain.{bundle_meant, export_meant, meant};
ghost use Rattle.shelf.specs.Refusal.{PlainRefused};

use crate::export::Export;
use crate::lawful::within_limits;
use crate::need::Need;
use crate::refusal::{FillRefusal, PlainRefusal};
use crate::shelf::Shelf;
use crate::values::{PlainBundle, PlainExport};
use kinds::controller::ControllerNumber;
use kinds::range::Range;
use kinds::version::Version;

#[derive(Drop)]
pub struct PlainShelf<'a> {
    places: &'a [Option<PlainBundle<'a>>],
    ghost lawful: { ∥ WellFormed (meant places.now) ∥₁ },
}

impl<'a> PlainShelf<'a> {
    // A shelf without places.
    pub fn empty() -> PlainShelf<'a>
        ensures { result.places.now ≡ [] }
    {
        PlainShelf { places: &[] }
    }

    // A shelf of these places, unless they break a limit.
    pub fn new(places: &'a [Option<PlainBundle<'a>>]) -> Result<PlainShelf<'a>, PlainRefusal>
        ensures granted { MatchResult result (λ _. WellFormed (meant places.now)) (λ e. PlainRefused e (meant places.now)) }
        ensures places { IfOk result (λ s. s.places.now ≡ places.now) }
    {
        if within_limits(places) {
            Ok(PlainShelf { places })
        } else {
            Err(PlainRefusal::LimitBroken)
        }
    }

    // These places in the place of those before, unless they break a limit: then nothing changes.
    pub fn fill(&mut self, places: &'a [Option<PlainBundle<'a>>]) -> Result<(), FillRefusal>
        ensures granted { MatchResult result (λ _. WellFormed (meant places.now)) (λ e. PlainRefused e (meant places.now)) }
        ensures filled { self.new.places.now ≡ (if is_ok result then places.now else self.old.places.now) }
    {
        *self = PlainShelf::new(places)?;
        Ok(())
    }

    // The bundle at a place, if one is there.
    fn bundle(&self, place: usize) -> Option<PlainBundle<'a>>
        ensures { option_map bundle_meant result ≡ bundle_at (meant self.now.places.now) place }
    {
        self.places.get(place).copied().flatten()
    }

    // Its export j, if there is one.
    fn plain_export(&self, place: usize, j: usize) -> Option<PlainExport<'a>>
        ensures { option_map export_meant result ≡ export_at (meant self.now.places.now) place j }
    {
        self.bundle(place)?.exports.get(j).copied()
    }
}

impl Shelf for PlainShelf<'_> {
    ghost meaning = { λ s. meant s.places.now };

    ghost formed = { λ s. kept (meant s.places.now) s.lawful };

    fn count(&self) -> usize {
        self.places.len()
    }

    fn present(&self, place: usize) -> bool {
        self.bundle(place).is_some()
    }

    fn name(&self, place: usize) -> Option<&[u8]> {
        Some(self.bundle(place)?.name)
    }

    fn version(&self, place: usize) -> Option<Version> {
        Some(self.bundle(place)?.version)
    }

    fn controllers(&self, place: usize) -> Option<Range<ControllerNumber>> {
        Some(self.bundle(place)?.controllers)
    }

    fn export(&self, place: usize, j: usize) -> Option<Export<'_>> {
        let export = self.plain_export(place, j)?;
        Some(Export {
            name: export.name,
            version: export.version,
        })
    }

    fn used(&self, place: usize, j: usize, k: usize) -> Option<&[u8]> {
        self.plain_export(place, j)?.uses.get(k).copied()
    }

    fn need(&self, place: usize, k: usize) -> Option<Need<'_>> {
        self.bundle(place)?.needs.get(k).copied()
    }
}
