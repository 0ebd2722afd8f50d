// What each need is, and who can serve it.
ghost use Rattle.std.specs.Prelude.{◌≡◌, ℕ, true};
ghost use Rattle.places.specs.Sets.{has};
ghost use Rattle.wiring.specs.Candidates.{candidate_at};
ghost use Rattle.digest.specs.Each.{Each};
ghost use Rattle.digest.specs.Exporters.{Exporting};
ghost use Rattle.digest.specs.Needs.{Fitting, Importing, NeedAt, Needing, import_of};
ghost use Rattle.digest.specs.Packages.{Numbering};

use crate::exporters::Exporters;
use crate::index::Names;
use crate::need::NeedDigest;
use places::set::PlaceSet;
use shelf::limits::{NEEDS, PLACES};
use shelf::need::{Need, NeedKind};
use shelf::shelf::Shelf;
use std::array;
use wiring::candidates::Target;

// What is known of a shelf before its needs. Its clauses write the shelf's meaning out: a word for it would name this struct, and the
// struct's invariants import all that the clauses of its file name.
#[derive(Drop)]
pub struct Known<'s, S: Shelf> {
    pub target: Target<'s, S>,
    pub names: Names<'s, S>,
    pub exporters: Exporters,
    pub fitting: PlaceSet,
    ghost same: { S.Shelf.meaning names.index.shelf.now ≡ S.Shelf.meaning target.shelf.now },
    ghost exporting: { ∥ Exporting (S.Shelf.meaning target.shelf.now) exporters.sets ∥₁ },
    ghost fits: { Fitting (S.Shelf.meaning target.shelf.now) target.controller fitting },
}

impl<'s, S: Shelf> Known<'s, S> {
    // The number of the package that a need imports.
    fn imports(&self, need: &Need<'_>) -> Option<u16>
        ensures { Numbering (S.Shelf.meaning self.now.target.shelf.now) (import_of need.now.kind need.now.name.now) result }
    {
        match need.kind {
            NeedKind::Import => self.names.number(need.name),
            NeedKind::Require(_) => None,
        }
    }

    // The places that export the package that a need imports.
    // No `map_or`: its closure would have to state again what `of` ensures.
    fn exporters(&self, imports: Option<u16>) -> PlaceSet
        ensures { Importing (S.Shelf.meaning self.now.target.shelf.now) imports result }
    {
        match imports {
            Some(number) => self.exporters.of(usize::from(number)),
            None => PlaceSet::empty(),
        }
    }

    // The candidates for need k of b, which all are in the pool.
    fn candidates(&self, b: usize, k: usize, pool: PlaceSet) -> PlaceSet
        requires { (c : ℕ) → candidate_at (S.Shelf.meaning self.now.target.shelf.now) self.now.target.controller b k c ≡ true → has pool c ≡ true }
        ensures { (c : ℕ) → has result c ≡ candidate_at (S.Shelf.meaning self.now.target.shelf.now) self.now.target.controller b k c }
    {
        if pool.is_empty() {
            return pool;
        }
        PlaceSet::those(&array::from_fn(|c| {
            pool.contains(c) && self.target.is_candidate(b, k, c)
        }))
    }

    fn need_digest(&self, b: usize, k: usize) -> Option<NeedDigest>
        ensures { NeedAt (S.Shelf.meaning self.now.target.shelf.now) self.now.target.controller b k result }
    {
        let need = self.target.shelf.need(b, k)?;
        let imports = self.imports(&need);
        let exporters = self.exporters(imports);
        let pool = match need.kind {
            NeedKind::Import => exporters,
            NeedKind::Require(_) => self.fitting,
        };
        Some(NeedDigest {
            kind: need.kind,
            resolution: need.resolution,
            imports,
            own: exporters.contains(b),
            candidates: self.candidates(b, k, pool),
        })
    }

    fn needs_of(&self, b: usize) -> [Option<NeedDigest>; NEEDS]
        ensures { Each 16 (NeedAt (S.Shelf.meaning self.now.target.shelf.now) self.now.target.controller b) result }
    {
        array::from_fn(|k| self.need_digest(b, k))
    }

    pub(crate) fn needs(&self) -> [[Option<NeedDigest>; NEEDS]; PLACES]
        ensures { Needing (S.Shelf.meaning self.now.target.shelf.now) self.now.target.controller result }
    {
        array::from_fn(
            |b|
                ensures { Each 16 (NeedAt (S.Shelf.meaning self.entry.now.target.shelf.now) self.entry.now.target.controller b) result }
            { self.needs_of(b) },
        )
    }
}
