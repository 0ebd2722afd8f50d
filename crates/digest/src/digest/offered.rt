// The versions that candidates offer, as a digest tells them.
ghost use Rattle.std.specs.Prelude.{◌≡◌};
ghost use Rattle.shelf.specs.Meaning.{Name};
ghost use Rattle.wiring.specs.Candidates.{exported, offered_at};
ghost use Rattle.digest.specs.Packages.{NumberOf};
ghost use Rattle.digest.specs.View.{Tells};

use super::Digest;
use kinds::version::Version;
use shelf::need::NeedKind;

impl Digest {
    // The version that c offers for need k of b, if it is a candidate.
    pub fn offered(&self, b: usize, k: usize, c: usize) -> Option<Version>
        ensures { Tells self.now (λ m controller. result ≡ offered_at m controller b k c) }
    {
        if !self.candidates(b, k).contains(c) {
            return None;
        }
        let need = self.need(b, k)?;
        match need.kind {
            NeedKind::Import => self.version_of(c, need.imports?),
            NeedKind::Require(_) => Some(self.provider(c)?.version),
        }
    }

    // The version of the package with that number that c exports.
    fn version_of(&self, c: usize, number: u16) -> Option<Version>
        ensures { Tells self.now (λ m controller. (q : Name) → NumberOf m q number → result ≡ exported m c q) }
    {
        let exports = &self.provider(c)?.exports;
        exports
            .iter()
            .flatten()
            .find(|export| export.number == number)
            .map(|export| export.version)
    }
}
