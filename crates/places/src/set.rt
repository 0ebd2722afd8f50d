// A set of places 0 to 63, one bit to a place. What is not such a place is in no set.
ghost use Rattle.std.specs.Prelude.{◌≡◌, ℕ, ◌<◌, ◌≤◌, true, false, not, ◌&&◌, ◌||◌, Decides, MatchOption, slice_index_or};
ghost use Rattle.places.specs.Members.{only};
ghost use Rattle.places.specs.Sets.{has, rank, Lowest};

// The most places that a shelf may have.
pub const PLACES: usize = 64;

#[derive(Clone, Copy, PartialEq, Eq, Debug, Default)]
pub struct PlaceSet(u64);

#[tactic(auto, using(crate::proofs::Sets::operations))]
impl PlaceSet {
    pub fn empty() -> PlaceSet
        ensures { (p : ℕ) → has result p ≡ false }
    {
        PlaceSet(0)
    }

    // The places whose flag is set. Not by a closure for a test: that one would have to be one that may be called.
    pub fn those(flags: &[bool; PLACES]) -> PlaceSet
        ensures places { (p : ℕ) → p < 64 → has result p ≡ slice_index_or flags.now p false }
        ensures others { (p : ℕ) → 64 ≤ p → has result p ≡ false }
    {
        let mut found = PlaceSet::empty();
        for place in 0..PLACES {
            if flags[place] {
                found.insert(place);
            }
        }
        found
    }

    pub fn contains(self, place: usize) -> bool
        ensures value { result ≡ has self place }
        ensures below { result ≡ true → place < 64 }
    {
        place < PLACES && (self.0 >> place) & 1 == 1
    }

    pub fn insert(&mut self, place: usize)
        ensures { (p : ℕ) → has self.new p ≡ (only place p || has self.old p) }
    {
        if place < PLACES {
            self.0 |= 1 << place;
        }
    }

    // A set from which a place is taken has a lower rank: loops that empty a set end by it.
    pub fn remove(&mut self, place: usize)
        ensures value { (p : ℕ) → has self.new p ≡ (has self.old p && not (only place p)) }
        ensures falls { has self.old place ≡ true → rank self.new < rank self.old }
    {
        // Not `&=` on the field: tried, and the goals of both clauses stay open without the local.
        let bits = self.0;
        if place < PLACES {
            self.0 = bits & !(1 << place);
        }
    }

    pub fn union(self, other: PlaceSet) -> PlaceSet
        ensures { (p : ℕ) → has result p ≡ (has self p || has other p) }
    {
        PlaceSet(self.0 | other.0)
    }

    pub fn intersection(self, other: PlaceSet) -> PlaceSet
        ensures { (p : ℕ) → has result p ≡ (has self p && has other p) }
    {
        PlaceSet(self.0 & other.0)
    }

    // The places that the other set does not have.
    pub fn difference(self, other: PlaceSet) -> PlaceSet
        ensures { (p : ℕ) → has result p ≡ (has self p && not (has other p)) }
    {
        PlaceSet(self.0 & !other.0)
    }

    pub fn is_empty(self) -> bool
        ensures { Decides result ((p : ℕ) → has self p ≡ false) }
    {
        self.0 == 0
    }

    // The library's `==`, in the words of the definitions: whether the two have the same places.
    pub fn is_same(self, other: PlaceSet) -> bool
        ensures { Decides result ((p : ℕ) → has self p ≡ has other p) }
    {
        self == other
    }

    pub fn lowest(self) -> Option<usize>
        ensures { MatchOption result ((p : ℕ) → has self p ≡ false) (Lowest self) }
    {
        if self.0 == 0 {
            None
        } else {
            Some(self.0.trailing_zeros() as usize)
        }
    }
}
