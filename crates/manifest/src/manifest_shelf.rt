// A directory that was read, and its index.
ghost use Rattle.std.specs.Prelude.{◌≡◌, Ok};
ghost use Rattle.manifest.specs.Index.{bundles_in};
ghost use Rattle.manifest.specs.Reading.{reading};

use crate::entry::BundleEntry;
use arrayvec::ArrayVec;
use shelf::limits::PLACES;

pub mod opening;
pub mod questions;

// Whatever is asked of it is read from the index; the text is not read again.
#[derive(Drop)]
pub struct ManifestShelf<'a> {
    text: &'a [u8],
    bundles: ArrayVec<BundleEntry<'a>, PLACES>,
    ghost lawful: { ∥ Ok (bundles_in bundles) ≡ reading text.now ∥₁ },
}
