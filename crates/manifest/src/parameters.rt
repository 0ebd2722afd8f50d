// The parameters of a clause.
ghost use Rattle.std.specs.Prelude.{◌≡◌, codes};
ghost use Rattle.std.specs.Option.{option_map};
ghost use Rattle.shelf.specs.Meaning.{bound};
ghost use Rattle.manifest.specs.Clauses.{with_parameter};
ghost use Rattle.manifest.specs.Parameters.{after as after_key, names_of, parameter_of, quoted_after, resolution_of, visibility_of, uses, resolution as resolved, visibility as visible};
ghost use Rattle.manifest.specs.Parts.{part_in, raw_in};

use crate::clause::{Part, RawEntry};
use crate::header::Grammar;
use crate::keywords::{named, version_key};
use crate::names::are_names;
use crate::quoted::quoted_after;
use shelf::need::{Resolution, Visibility};

const RESOLUTIONS: [(&[u8], Resolution); 2] = [
    (b"mandatory", Resolution::Mandatory),
    (b"optional", Resolution::Optional),
];

const VISIBILITIES: [(&[u8], Visibility); 2] = [
    (b"private", Visibility::Private),
    (b"reexport", Visibility::Reexport),
];

// What a piece of a clause says as a parameter of that header's clauses.
pub fn parameter(piece: &[u8], grammar: Grammar) -> Option<Part<'_>>
    ensures { option_map part_in result ≡ parameter_of grammar piece.now }
{
    if let Some(version) = quoted_after(piece, version_key(grammar)) {
        return Some(Part::Version(version));
    }
    match grammar {
        Grammar::Exports => uses_in(piece),
        Grammar::Imports => resolution_in(piece),
        Grammar::Requires => resolution_in(piece).or_else(|| visibility_in(piece)),
    }
}

fn uses_in(piece: &[u8]) -> Option<Part<'_>>
    ensures { option_map part_in result ≡ option_map uses (bound (quoted_after (codes "uses:=") piece.now) names_of) }
{
    let names = quoted_after(piece, b"uses:=")?;
    are_names(names).then_some(Part::Uses(names))
}

// Each has its own key, table and kind of parameter. Not `.map(Part::Resolution)`: the check does not cover a function whose result
// names a lifetime that its arguments do not name.
#[tactic(auto, using(crate::proofs::Strips::after_stripped))]
fn resolution_in(piece: &[u8]) -> Option<Part<'_>>
    ensures { option_map part_in result ≡ option_map resolved (bound (after_key (codes "resolution:=") piece.now) resolution_of) }
{
    let resolution = named(piece.strip_prefix(b"resolution:=")?, &RESOLUTIONS)?;
    Some(Part::Resolution(resolution))
}

#[tactic(auto, using(crate::proofs::Strips::after_stripped))]
fn visibility_in(piece: &[u8]) -> Option<Part<'_>>
    ensures { option_map part_in result ≡ option_map visible (bound (after_key (codes "visibility:=") piece.now) visibility_of) }
{
    let visibility = named(piece.strip_prefix(b"visibility:=")?, &VISIBILITIES)?;
    Some(Part::Visibility(visibility))
}

// The clause with one parameter more, unless it had that already.
pub fn with_parameter<'a>(mut clause: RawEntry<'a>, part: Part<'a>) -> Option<RawEntry<'a>>
    ensures { option_map raw_in result ≡ with_parameter (raw_in clause.entry) (part_in part.entry) }
{
    let fresh = match part {
        Part::Version(version) => clause.version.replace(version).is_none(),
        Part::Uses(uses) => clause.uses.replace(uses).is_none(),
        Part::Resolution(resolution) => clause.resolution.replace(resolution).is_none(),
        Part::Visibility(visibility) => clause.visibility.replace(visibility).is_none(),
    };
    fresh.then_some(clause)
}
