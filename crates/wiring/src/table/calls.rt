// What can be done with a table of choices.
ghost use Rattle.std.specs.Prelude.{◌≡◌, ℕ, if◌then◌else◌, nat_eq};
ghost use Rattle.wiring.specs.Cells.{is_cell};
ghost use Rattle.wiring.specs.Chosen.{chosen};

use super::ChoiceTable;
use crate::choice::Choice;
use shelf::limits::{NEEDS, PLACES};

impl ChoiceTable {
    // Every need is unwired at first.
    pub fn new() -> ChoiceTable
        ensures { (b k : ℕ) → chosen result b k ≡ Choice.Unwired }
    {
        ChoiceTable {
            rows: [[Choice::Unwired; NEEDS]; PLACES],
        }
    }

    // Where the table has no cell, nothing is wired.
    pub fn get(&self, place: usize, need: usize) -> Choice
        ensures { result ≡ chosen self.now place need }
    {
        self.rows
            .get(place)
            .and_then(|row| row.get(need))
            .copied()
            .unwrap_or_default()
    }

    // Where the table has no cell, nothing is changed.
    pub fn set(&mut self, place: usize, need: usize, choice: Choice)
        ensures { (b k : ℕ) → chosen self.new b k ≡ (if is_cell place need b k then choice else chosen self.old b k) }
    {
        // Not `get_mut`, here and below: tried, and what the rows are after it is not known, since its contract tells only what it lends.
        if place < PLACES && need < NEEDS {
            self.rows[place][need] = choice;
        }
    }

    // Every need of the place is unwired again.
    pub fn clear(&mut self, place: usize)
        ensures { (b k : ℕ) → chosen self.new b k ≡ (if nat_eq b place then Choice.Unwired else chosen self.old b k) }
    {
        if place < PLACES {
            self.rows[place] = [Choice::Unwired; NEEDS];
        }
    }
}
