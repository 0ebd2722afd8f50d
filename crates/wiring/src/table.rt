// The table itself, in a file of its own, since the definition of what it keeps names it.
ghost use Rattle.std.specs.Prelude.{◌≡◌, length, All};
ghost use Rattle.std.proofs.Props.{props};

use crate::choice::Choice;
use shelf::limits::{NEEDS, PLACES};

pub mod calls;

// A row of choices for each place, one for each of its needs. That rows are whole is told here, since proofs do not see the length of an inner array.
#[derive(Drop)]
pub struct ChoiceTable {
    rows: [[Choice; NEEDS]; PLACES],
    ghost full: { All (λ row. length row ≡ 16) rows } by { Prim.hlevel props },
}
