// Clauses: a name and its parameters.
ghost use Rattle.std.specs.Prelude.{◌≡◌};
ghost use Rattle.std.specs.Option.{option_map};
ghost use Rattle.manifest.specs.Clauses.{clause as clause_in};
ghost use Rattle.manifest.specs.Parts.{raw_in};

use crate::clause::RawEntry;
use crate::header::Grammar;
use crate::names::is_name;
use crate::parameters::{parameter, with_parameter};
use text::pieces::Pieces;

// One clause: its name and parameters stand between semicolons.
#[tactic(auto, using(crate::proofs::Stops::none_stays))]
pub fn clause(piece: &[u8], grammar: Grammar) -> Option<RawEntry<'_>>
    ensures { option_map raw_in result ≡ clause_in grammar piece.now }
{
    let mut pieces = Pieces::outside_quotes(piece, b';');
    let name = pieces.next()?;
    if !is_name(name) {
        return None;
    }
    let mut clause = RawEntry {
        name,
        ..RawEntry::default()
    };
    for piece in pieces {
        clause = with_parameter(clause, parameter(piece, grammar)?)?;
    }
    Some(clause)
}
