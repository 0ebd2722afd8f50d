// A manifest that is closed, as a bundle.
ghost use Rattle.std.specs.Prelude.{◌≡◌, map};
ghost use Rattle.manifest.specs.Drafts.{headers_in};
ghost use Rattle.manifest.specs.Index.{bundle_in};
ghost use Rattle.manifest.specs.Reading.{bundle_of, taken};

use crate::draft::Draft;
use crate::entry::BundleEntry;
use kinds::version::Version;
use text::bytes::same_text;

// The imports and then what is required, whatever the order of the two headers.
pub fn bundle_of<'a>(name: &'a [u8], draft: Draft<'a>) -> BundleEntry<'a>
    ensures { bundle_in result ≡ bundle_of name.now (headers_in draft.entry) }
{
    let mut needs = draft.imports.unwrap_or_default();
    let required = draft.required.unwrap_or_default();
    needs.try_extend_from_slice(&required).unwrap();
    BundleEntry {
        name,
        version: draft.version.unwrap_or_default(),
        controllers: draft.controllers.unwrap_or_default(),
        exports: draft.exports,
        needs,
    }
}

// Whether a bundle of that name and version is there.
pub fn has_bundle(bundles: &[BundleEntry<'_>], name: &[u8], version: Version) -> bool
    ensures { result ≡ taken name.now version (map bundle_in bundles.now) }
{
    bundles.iter().any(|bundle| same_text(name, bundle.name) && version == bundle.version)
}
