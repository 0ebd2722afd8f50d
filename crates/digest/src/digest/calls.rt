// What a digest is asked, by position as a shelf is. Any number may be asked for: what is not there is `None`, no or an empty set.
ghost use Rattle.std.specs.Prelude.{◌≡◌, ℕ, Some, None, Decides, MatchOption};
ghost use Rattle.places.specs.Sets.{has};
ghost use Rattle.shelf.specs.Meaning.{bundle_at, export_at, need_at, used_at};
ghost use Rattle.wiring.specs.Candidates.{fits, own_at, candidate_at};
ghost use Rattle.digest.specs.Needs.{NeedAt, import_in, optional_in, role_in};
ghost use Rattle.digest.specs.Packages.{ExportsNumber, Numbering, package_at};
ghost use Rattle.digest.specs.Providers.{IsExport, IsProvider};
ghost use Rattle.digest.specs.View.{Tells};

use super::Digest;
use crate::need::NeedDigest;
use crate::provider::{ExportDigest, ProviderDigest};
use places::set::PlaceSet;
use shelf::need::{NeedKind, Resolution};

impl Digest {
    // Whether there is a bundle at b, and it runs on the controller.
    pub fn fits(&self, b: usize) -> bool
        ensures { Tells self.now (λ m controller. result ≡ fits m controller b) }
    {
        self.fitting.contains(b)
    }

    // What the bundle at b provides.
    pub(crate) fn provider(&self, b: usize) -> Option<&ProviderDigest>
        ensures { Tells self.now (λ m controller. MatchOption result (bundle_at m b ≡ None) (λ d. IsProvider m b d.now)) }
    {
        self.providers.get(b)?.as_ref()
    }

    // Export j of b.
    fn export(&self, b: usize, j: usize) -> Option<&ExportDigest>
        ensures { Tells self.now (λ m controller. MatchOption result (export_at m b j ≡ None) (λ d. IsExport m b j d.now)) }
    {
        self.provider(b)?.exports.get(j)?.as_ref()
    }

    // The number of the package of export j of b.
    pub fn exported(&self, b: usize, j: usize) -> Option<usize>
        ensures { Tells self.now (λ m controller. Numbering m (package_at m b j) result) }
    {
        Some(usize::from(self.export(b, j)?.number))
    }

    // The number of the k-th package that export j of b uses.
    pub fn used(&self, b: usize, j: usize, k: usize) -> Option<usize>
        ensures { Tells self.now (λ m controller. Numbering m (used_at m b j k) result) }
    {
        self.export(b, j)?.used.get(k)?.as_option()
    }

    // The places that export the package with that number.
    pub fn exporters(&self, number: usize) -> PlaceSet
        ensures { Tells self.now (λ m controller. (x : ℕ) → Decides (has result x) (ExportsNumber m x number)) }
    {
        self.exporters.of(number)
    }

    // What need k of b is.
    pub(crate) fn need(&self, b: usize, k: usize) -> Option<NeedDigest>
        ensures { Tells self.now (λ m controller. NeedAt m controller b k result) }
    {
        *self.needs.get(b)?.get(k)?
    }

    // The places of the candidates for need k of b.
    pub fn candidates(&self, b: usize, k: usize) -> PlaceSet
        ensures { Tells self.now (λ m controller. (c : ℕ) → has result c ≡ candidate_at m controller b k c) }
    {
        self.need(b, k)
            .map_or(PlaceSet::empty(), |need| need.candidates)
    }

    pub fn role(&self, b: usize, k: usize) -> Option<NeedKind>
        ensures { Tells self.now (λ m controller. result ≡ role_in (need_at m b k)) }
    {
        Some(self.need(b, k)?.kind)
    }

    // The number of the package that need k of b imports.
    pub fn imported(&self, b: usize, k: usize) -> Option<usize>
        ensures { Tells self.now (λ m controller. Numbering m (import_in (need_at m b k)) result) }
    {
        self.need(b, k)?.imports.map(usize::from)
    }

    pub fn is_optional(&self, b: usize, k: usize) -> bool
        ensures { Tells self.now (λ m controller. result ≡ optional_in (need_at m b k)) }
    {
        self.need(b, k)
            .is_some_and(|need| need.resolution == Resolution::Optional)
    }

    // Whether need k of b takes no choice, since b exports that package itself.
    pub fn is_own(&self, b: usize, k: usize) -> bool
        ensures { Tells self.now (λ m controller. result ≡ own_at m b k) }
    {
        self.need(b, k).is_some_and(|need| need.own)
    }
}
