// The questions that every shelf answers.
ghost use Rattle.std.specs.Prelude.{◌≡◌, length, is_some};
ghost use Rattle.std.specs.Option.{option_map};
ghost use Rattle.shelf.specs.Meaning.{Meaning, WellFormed, bundle_at, name_at, version_at, controllers_at, used_at, need_at};
ghost use Rattle.shelf.specs.Lent.{offer_of, offer_at, need_of};

use crate::export::Export;
use crate::need::Need;
use kinds::controller::ControllerNumber;
use kinds::range::Range;
use kinds::version::Version;

// Any number may be asked for: what is not there is `None`. Names are lent, never copied.
pub trait Shelf {
    // the places, each absent or a bundle
    ghost meaning: { Self → Meaning };

    // How many places there are, absent ones included.
    fn count(&self) -> usize
        ensures { result ≡ length (meaning self.now) };

    fn present(&self, place: usize) -> bool
        ensures { result ≡ is_some (bundle_at (meaning self.now) place) };

    fn name(&self, place: usize) -> Option<&[u8]>
        ensures { option_map (λ x. x.now) result ≡ name_at (meaning self.now) place };

    fn version(&self, place: usize) -> Option<Version>
        ensures { result ≡ version_at (meaning self.now) place };

    // Which controllers the bundle runs on.
    fn controllers(&self, place: usize) -> Option<Range<ControllerNumber>>
        ensures { result ≡ controllers_at (meaning self.now) place };

    fn export(&self, place: usize, j: usize) -> Option<Export<'_>>
        ensures { option_map offer_of result ≡ offer_at (meaning self.now) place j };

    // The k-th package that export j uses.
    fn used(&self, place: usize, j: usize, k: usize) -> Option<&[u8]>
        ensures { option_map (λ x. x.now) result ≡ used_at (meaning self.now) place j k };

    fn need(&self, place: usize, k: usize) -> Option<Need<'_>>
        ensures { option_map need_of result ≡ need_at (meaning self.now) place k };

    // every shelf keeps the limits
    ghost formed: { (s : Self) → WellFormed (meaning s) };
}
