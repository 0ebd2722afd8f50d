// Which bundles can serve a need on a controller.
ghost use Rattle.std.specs.Prelude.{◌≡◌, ℕ, Decides};
ghost use Rattle.places.specs.Sets.{has};
ghost use Rattle.shelf.specs.Looked.{Own};
ghost use Rattle.wiring.specs.Candidates.{fits, range_holds, own_at, offered_at, candidate_at};
ghost use Rattle.wiring.specs.Rules.{Fits, Candidate};

use crate::offers::{in_range, version_for};
use kinds::controller::ControllerNumber;
use kinds::range::Range;
use kinds::version::Version;
use places::set::PlaceSet;
use shelf::lookup::At;
use shelf::shelf::Shelf;
use std::array;

// A shelf, and the controller that its bundles are to run on.
#[derive_where(Clone, Copy)]
pub struct Target<'s, S> {
    pub shelf: &'s S,
    pub controller: ControllerNumber,
}

impl<'s, S: Shelf> Target<'s, S> {
    // Whether there is a bundle at the place, and it runs on the controller.
    pub fn fits(&self, place: usize) -> bool
        ensures value { result ≡ fits (S.Shelf.meaning self.now.shelf.now) self.now.controller place }
        ensures rule { Decides result (Fits (S.Shelf.meaning self.now.shelf.now) self.now.controller place) }
    {
        runs_on(self.shelf.controllers(place), self.controller)
    }

    // The version that the bundle at c offers for need k of the one at b, if it is a candidate. Needs are named by position, as a shelf is
    // asked for them.
    pub fn offered(&self, b: usize, k: usize, c: usize) -> Option<Version>
        ensures { result ≡ offered_at (S.Shelf.meaning self.now.shelf.now) self.now.controller b k c }
    {
        let need = self.shelf.need(b, k)?;
        if c == b || !self.fits(c) {
            return None;
        }
        let provider = At {
            shelf: self.shelf,
            place: c,
        };
        in_range(&need.range, version_for(&provider, &need))
    }

    pub fn is_candidate(&self, b: usize, k: usize, c: usize) -> bool
        ensures value { result ≡ candidate_at (S.Shelf.meaning self.now.shelf.now) self.now.controller b k c }
        ensures rule { Decides result (Candidate (S.Shelf.meaning self.now.shelf.now) self.now.controller b k c) }
    {
        self.offered(b, k, c).is_some()
    }

    // The candidates for need k of the bundle at b.
    pub fn candidates(&self, b: usize, k: usize) -> PlaceSet
        ensures { (c : ℕ) → has result c ≡ candidate_at (S.Shelf.meaning self.now.shelf.now) self.now.controller b k c }
    {
        PlaceSet::those(&array::from_fn(|c| self.is_candidate(b, k, c)))
    }
}

// Whether there is a controller range, and it holds the number.
#[tactic(auto, using(kinds::proofs::Orders::controller_order))]
fn runs_on(controllers: Option<Range<ControllerNumber>>, controller: ControllerNumber) -> bool
    ensures { result ≡ range_holds controllers controller }
{
    controllers.is_some_and(|range| range.holds(&controller))
}

// Whether need k takes no choice, since the bundle exports that package itself.
#[tactic(auto, using(crate::proofs::Exported::own_decides))]
pub fn is_own<S: Shelf>(shelf: &S, place: usize, k: usize) -> bool
    ensures value { result ≡ own_at (S.Shelf.meaning shelf.now) place k }
    ensures rule { Decides result (Own (S.Shelf.meaning shelf.now) place k) }
{
    At { shelf, place }.is_own_import(k)
}
