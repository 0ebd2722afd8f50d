// Making the digest of a shelf.
ghost use Rattle.digest.specs.Needs.{Fitting};
ghost use Rattle.digest.specs.View.{Digests};

use crate::digest::Digest;
use crate::exporters::Exporters;
use crate::index::Names;
use crate::needs::Known;
use kinds::controller::ControllerNumber;
use places::set::PlaceSet;
use shelf::shelf::Shelf;
use std::array;
use wiring::candidates::Target;

// Which bundles run on the controller.
fn fitting<S: Shelf>(target: &Target<'_, S>) -> PlaceSet
    ensures { Fitting (S.Shelf.meaning target.now.shelf.now) target.now.controller result }
{
    PlaceSet::those(&array::from_fn(|b| target.fits(b)))
}

// All that a search asks of the shelf, asked once.
pub fn digest<S: Shelf>(shelf: &S, controller: ControllerNumber) -> Digest
    ensures { Digests (S.Shelf.meaning shelf.now) controller result }
{
    let target = Target { shelf, controller };
    let names = Names::of(shelf);
    let providers = names.providers();
    let known = Known {
        target,
        names,
        exporters: Exporters::gather(&providers),
        fitting: fitting(&target),
    };
    Digest {
        providers,
        exporters: known.exporters,
        fitting: known.fitting,
        needs: known.needs(),
    }
}
