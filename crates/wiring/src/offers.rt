// What a bundle has under a name.
ghost use Rattle.std.specs.Prelude.{◌≡◌};
ghost use Rattle.shelf.specs.Lent.{need_of};
ghost use Rattle.wiring.specs.Candidates.{exported, named, version_for, in_range};

use kinds::range::Range;
use kinds::version::Version;
use shelf::lookup::At;
use shelf::need::{Need, NeedKind};
use shelf::shelf::Shelf;

// The version of the package that the bundle exports under that name.
fn exported_version<S: Shelf>(at: &At<'_, S>, name: &[u8]) -> Option<Version>
    ensures { result ≡ exported (S.Shelf.meaning at.now.shelf.now) at.now.place name.now }
{
    let j = at.export_named(name)?;
    Some(at.shelf.export(at.place, j)?.version)
}

// The version of the bundle, if it has that name.
#[tactic(auto, using(crate::proofs::Exported::named_version, crate::proofs::Exported::unnamed_none))]
fn named_version<S: Shelf>(at: &At<'_, S>, name: &[u8]) -> Option<Version>
    ensures { result ≡ named (S.Shelf.meaning at.now.shelf.now) at.now.place name.now }
{
    if at.is_named(name) {
        at.shelf.version(at.place)
    } else {
        None
    }
}

// The version of what the bundle has for the need, in its range or not.
pub fn version_for<S: Shelf>(at: &At<'_, S>, need: &Need<'_>) -> Option<Version>
    ensures { result ≡ version_for (need_of need.now).kind (S.Shelf.meaning at.now.shelf.now) at.now.place (need_of need.now).name }
{
    match need.kind {
        NeedKind::Import => exported_version(at, need.name),
        NeedKind::Require(_) => named_version(at, need.name),
    }
}

// The version, if there is one and the range holds it.
#[tactic(auto, using(kinds::proofs::Orders::version_order))]
pub fn in_range(range: &Range<Version>, version: Option<Version>) -> Option<Version>
    ensures { result ≡ in_range range.now version }
{
    version.filter(|found| range.holds(found))
}
