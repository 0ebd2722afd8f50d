// A layer over any shelf that hides some of its places.
ghost use Rattle.std.specs.Prelude.{◌≡◌, true, false, length, replicate, slice_index_or, None, MatchOption};
ghost use Rattle.shelf.specs.Hidden.{Covered, Marked, hidden_by};
ghost use Rattle.shelf.specs.Hiding.{hidden_formed};
ghost use Rattle.shelf.specs.Meaning.{bundle_at};

use crate::export::Export;
use crate::limits::PLACES;
use crate::need::Need;
use crate::refusal::HideRefusal;
use crate::shelf::Shelf;
use kinds::controller::ControllerNumber;
use kinds::range::Range;
use kinds::version::Version;

// A hidden place reads as absent, every other as below; the count stays. Flags and not a `PlaceSet`, since the rule of hiding speaks of a list of flags,
// and goes through it beside the list of places.
#[derive(Drop)]
pub struct Hide<S> {
    below: S,
    hidden: [bool; PLACES],
    ghost whole: { length hidden ≡ 64 },
}

impl<S: Shelf> Hide<S> {
    // Nothing is hidden at first.
    pub fn new(below: S) -> Self
        ensures { (result.below ≡ below) × (result.hidden ≡ replicate 64 false) }
    {
        Hide {
            below,
            hidden: [false; PLACES],
        }
    }

    pub fn hide(&mut self, place: usize) -> Result<(), HideRefusal>
        ensures below { self.new.below ≡ self.old.below }
        ensures marked { Marked self.old.hidden place true self.new.hidden result }
    {
        self.mark(place, true)
    }

    pub fn show(&mut self, place: usize) -> Result<(), HideRefusal>
        ensures below { self.new.below ≡ self.old.below }
        ensures marked { Marked self.old.hidden place false self.new.hidden result }
    {
        self.mark(place, false)
    }

    // The flag of one place is changed, no other. Not by `get_mut`: tried, and what the flags are after it is not known.
    #[tactic(auto, using(std::proofs::lemmas::List::set_past))]
    fn mark(&mut self, place: usize, flag: bool) -> Result<(), HideRefusal>
        ensures below { self.new.below ≡ self.old.below }
        ensures marked { Marked self.old.hidden place flag self.new.hidden result }
    {
        if place >= PLACES {
            return Err(HideRefusal::NoSuchPlace);
        }
        self.hidden[place] = flag;
        Ok(())
    }

    // Every question goes by what this means for the bundle at the place.
    #[tactic(auto, using(crate::specs::Hiding::covered))]
    pub fn is_hidden(&self, place: usize) -> bool
        ensures flag { result ≡ slice_index_or self.now.hidden place false }
        ensures meaning { Covered result self.now.hidden (S.Shelf.meaning self.now.below) place }
    {
        self.hidden.get(place).copied().unwrap_or(false)
    }

    // The shelf below, unless the place is hidden.
    fn shown(&self, place: usize) -> Option<&S>
        ensures { let below = S.Shelf.meaning self.now.below in let above = hidden_by self.now.hidden below in MatchOption result (bundle_at above place ≡ None) (λ s. (s.now ≡ self.now.below) × (bundle_at above place ≡ bundle_at below place)) }
    {
        (!self.is_hidden(place)).then_some(&self.below)
    }
}

impl<S: Shelf> Shelf for Hide<S> {
    ghost meaning = { λ h. hidden_by h.hidden (S.Shelf.meaning h.below) };

    ghost formed = { λ h. hidden_formed h.hidden (S.Shelf.meaning h.below) (S.Shelf.formed h.below) };

    #[tactic(auto, using(crate::specs::Hiding::length_hidden))]
    fn count(&self) -> usize {
        self.below.count()
    }

    fn present(&self, place: usize) -> bool {
        !self.is_hidden(place) && self.below.present(place)
    }

    fn name(&self, place: usize) -> Option<&[u8]> {
        self.shown(place)?.name(place)
    }

    fn version(&self, place: usize) -> Option<Version> {
        self.shown(place)?.version(place)
    }

    fn controllers(&self, place: usize) -> Option<Range<ControllerNumber>> {
        self.shown(place)?.controllers(place)
    }

    fn export(&self, place: usize, j: usize) -> Option<Export<'_>> {
        self.shown(place)?.export(place, j)
    }

    fn used(&self, place: usize, j: usize, k: usize) -> Option<&[u8]> {
        self.shown(place)?.used(place, j, k)
    }

    fn need(&self, place: usize, k: usize) -> Option<Need<'_>> {
        self.shown(place)?.need(place, k)
    }
}
