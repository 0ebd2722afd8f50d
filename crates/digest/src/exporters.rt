// Who exports what.
ghost use Rattle.std.specs.Prelude.{ℕ, ◌<◌, Decides};
ghost use Rattle.places.specs.Sets.{has};
ghost use Rattle.shelf.specs.Meaning.{Meaning, WellFormed};
ghost use Rattle.digest.specs.Exporters.{Added, Exporting};
ghost use Rattle.digest.specs.Packages.{ExportsNumber};
ghost use Rattle.digest.specs.Providers.{Providing};

use crate::limits::ALL_EXPORTS;
use crate::provider::{ExportDigest, ProviderDigest};
use places::set::PlaceSet;
use shelf::limits::{EXPORTS, PLACES};

// For each number the places that export the package with it.
#[derive(Clone, Copy)]
pub struct Exporters {
    sets: [PlaceSet; ALL_EXPORTS],
}

impl Exporters {
    // The places that export the package with that number.
    pub(crate) fn of(&self, number: usize) -> PlaceSet
        ensures { (m : Meaning) → WellFormed m → Exporting m self.now.sets → (x : ℕ) → Decides (has result x) (ExportsNumber m x number) }
    {
        self.sets.get(number).copied().unwrap_or_default()
    }

    // Adds a place to those of each number that one of its exports has.
    fn add(&mut self, place: usize, exports: &[Option<ExportDigest>; EXPORTS])
        requires { place < 64 }
        ensures { Added self.old.sets place exports.now 16 self.new.sets }
    {
        for export in exports.iter().flatten() {
            self.sets[usize::from(export.number)].insert(place);
        }
    }

    pub(crate) fn gather(providers: &[Option<ProviderDigest>; PLACES]) -> Exporters
        ensures { (m : Meaning) → WellFormed m → Providing m providers.now → Exporting m result.sets }
    {
        let mut exporters = Exporters {
            sets: [PlaceSet::empty(); ALL_EXPORTS],
        };
        for (place, provider) in providers.iter().enumerate() {
            if let Some(provider) = provider {
                exporters.add(place, &provider.exports);
            }
        }
        exporters
    }
}
