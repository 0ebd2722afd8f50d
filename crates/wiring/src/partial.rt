// A partial wiring: the choices for some of the needs of a shelf's bundles.
ghost use Rattle.std.specs.Prelude.{◌≡◌, ◌<◌, ◌≤◌, ◌↔◌, ℕ, if◌then◌else◌, [], ◌∷◌, ◌++◌, length, None, nat_eq, IsOk, OnOk, OnErr, IfErr};
ghost use Rattle.wiring.specs.Counted.{count_of, table_of};
ghost use Rattle.wiring.specs.Laws.{Extends};
ghost use Rattle.wiring.specs.Steps.{Counts, Decide, Retract};
ghost use Rattle.wiring.specs.declared.refusal.DecideRefusal.TheVariants.{AllDecided};

use crate::choice::Choice;
use crate::refusal::DecideRefusal;
use arrayvec::ArrayVec;
use shelf::limits::{NEEDS, PLACES};

// A bundle's needs are decided in order: a place has the choices for its first needs, and the others are open.
#[derive(Drop)]
pub struct PartialWiring {
    rows: [ArrayVec<Choice, NEEDS>; PLACES],
}

impl PartialWiring {
    // Every need is open at first.
    pub fn new() -> PartialWiring
        ensures { (b k : ℕ) → table_of result b k ≡ None }
    {
        PartialWiring {
            rows: std::array::from_fn(|_| ArrayVec::new()),
        }
    }

    // How many needs of the place are decided.
    pub fn count(&self, place: usize) -> usize
        ensures value { result ≡ count_of self.now place }
        ensures few { result ≤ 16 }
    {
        self.rows.get(place).map_or(0, |row| row.len())
    }

    // The choice for a need, if it is decided.
    pub fn get(&self, place: usize, need: usize) -> Option<Choice>
        ensures { result ≡ table_of self.now place need }
    {
        self.rows.get(place)?.as_slice().get(need).copied()
    }

    // Decides the first open need of the place.
    pub fn decide(&mut self, place: usize, choice: Choice) -> Result<(), DecideRefusal>
        ensures decides { Decide self.old place choice self.new result }
        ensures extends { Extends (table_of self.old) (table_of self.new) }
    {
        // Not `get_mut`, here and below: tried, and what the rows are after it is not known, since its contract tells only what it lends.
        if place >= PLACES {
            return Err(DecideRefusal::NoSuchPlace);
        }
        decide_next(&mut self.rows[place], choice)
    }

    // Opens the last decided need of the place again, and says what was chosen for it.
    #[tactic(auto, using(crate::proofs::Rows::retracts))]
    pub fn retract(&mut self, place: usize) -> Option<Choice>
        ensures { Retract self.old place self.new result }
    {
        if place >= PLACES {
            return None;
        }
        self.rows[place].pop()
    }

    // Opens every need of the place again.
    pub fn reopen(&mut self, place: usize)
        ensures opens { (b k : ℕ) → table_of self.new b k ≡ (if nat_eq b place then None else table_of self.old b k) }
        ensures counts { Counts self.old place 0 self.new }
    {
        if place < PLACES {
            self.rows[place].clear();
        }
    }
}

// Decides the first open need of the place that has the row.
fn decide_next(row: &mut ArrayVec<Choice, NEEDS>, choice: Choice) -> Result<(), DecideRefusal>
    ensures decides { OnOk result (row.new.items ≡ row.old.items ++ choice ∷ []) }
    ensures keeps { OnErr result (row.new ≡ row.old) }
    ensures fits { IsOk result ↔ (length row.old.items < 16) }
    ensures why { IfErr result (λ refusal. refusal ≡ AllDecided) }
{
    row.try_push(choice).map_err(|_| DecideRefusal::AllDecided)
}
