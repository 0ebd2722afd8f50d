// The headers so far of the manifest that is open.
ghost use Rattle.std.specs.Prelude.{◌≡◌, ◌+◌, ◌≤◌, None};
ghost use Rattle.manifest.specs.Together.{given};

use crate::entry::ExportEntry;
use arrayvec::ArrayVec;
use kinds::controller::ControllerNumber;
use kinds::range::Range;
use kinds::version::Version;
use shelf::limits::{EXPORTS, NEEDS};
use shelf::need::Need;

// Each known header if it was there; `required` is what Require-Bundle gave. A bundle has room for both kinds of needs.
#[derive(Drop)]
pub struct Draft<'a> {
    pub name: Option<&'a [u8]>,
    pub version: Option<Version>,
    pub controllers: Option<Range<ControllerNumber>>,
    pub exports: Option<ArrayVec<ExportEntry<'a>, EXPORTS>>,
    pub imports: Option<ArrayVec<Need<'a>, NEEDS>>,
    pub required: Option<ArrayVec<Need<'a>, NEEDS>>,
    ghost few: { given imports + given required ≤ 16 },
}

// Written out, since a struct with a ghost field has no derived `Default`.
impl Default for Draft<'_> {
    ghost is_default = { λ d. (d.name ≡ None) × (d.version ≡ None) × (d.controllers ≡ None) × (d.exports ≡ None) × (d.imports ≡ None) × (d.required ≡ None) };

    fn default() -> Self {
        Draft {
            name: None,
            version: None,
            controllers: None,
            exports: None,
            imports: None,
            required: None,
        }
    }
}
