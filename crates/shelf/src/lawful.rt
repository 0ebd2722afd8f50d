// Whether plain values keep the limits of a shelf.
ghost use Rattle.std.specs.Prelude.{◌≤◌, map, length, All, IfSome, Decides};
ghost use Rattle.std.specs.Option.{option_map};
ghost use Rattle.shelf.specs.Lent.{need_of};
ghost use Rattle.shelf.specs.Limits.{BarsNeed, SameExport};
ghost use Rattle.shelf.specs.Meaning.{FewExports, FewItems, FewNeeds, WellFormed};
ghost use Rattle.shelf.specs.Plain.{bundle_meant, export_meant, meant};

use crate::limits::{EXPORTS, NEEDS, PLACES, USES};
use crate::listed::{Listed, is_clear};
use crate::lookup::same_name;
use crate::need::{Need, NeedKind};
use crate::values::{PlainBundle, PlainExport};

// No package twice.
impl Listed for PlainExport<'_> {
    ghost barred = { λ e f. SameExport (export_meant e) (export_meant f) };

    fn bars(&self, later: &Self) -> bool {
        same_name(self.name, later.name)
    }
}

// No name twice among imports or among requires, and no import after a require.
impl Listed for Need<'_> {
    ghost barred = { λ a b. BarsNeed (need_of a) (need_of b) };

    fn bars(&self, later: &Self) -> bool {
        match (self.kind, later.kind) {
            (NeedKind::Import, NeedKind::Import) | (NeedKind::Require(_), NeedKind::Require(_)) =>
                same_name(self.name, later.name),
            (NeedKind::Require(_), NeedKind::Import) => true,
            (NeedKind::Import, NeedKind::Require(_)) => false,
        }
    }
}

// Whether they make a shelf.
pub fn within_limits(places: &[Option<PlainBundle<'_>>]) -> bool
    ensures { Decides result (WellFormed (meant places.now)) }
{
    places.len() <= PLACES && few_places(places)
}

// Whether the bundle at every place keeps the limits of a bundle.
fn few_places(places: &[Option<PlainBundle<'_>>]) -> bool
    ensures { Decides result (All (λ o. IfSome (option_map bundle_meant o) FewItems) places.now) }
{
    places.iter().flatten().all(|bundle| few_items(bundle))
}

fn few_items(bundle: &PlainBundle<'_>) -> bool
    ensures { Decides result (FewItems (bundle_meant bundle.now)) }
{
    few_exports(bundle.exports) && few_needs(bundle.needs)
}

fn few_exports(exports: &[PlainExport<'_>]) -> bool
    ensures { Decides result (FewExports (map export_meant exports.now)) }
{
    exports.len() <= EXPORTS && few_uses(exports) && is_clear(exports)
}

fn few_uses(exports: &[PlainExport<'_>]) -> bool
    ensures { Decides result (All (λ e. length (export_meant e).uses ≤ 8) exports.now) }
{
    exports.iter().all(|export| export.uses.len() <= USES)
}

fn few_needs(needs: &[Need<'_>]) -> bool
    ensures { Decides result (FewNeeds (map need_of needs.now)) }
{
    needs.len() <= NEEDS && is_clear(needs)
}
