// What each bundle provides.
ghost use Rattle.digest.specs.Meant.{meaning_of};
ghost use Rattle.digest.specs.Packages.{Numbering};
ghost use Rattle.digest.specs.Providers.{ExportAt, ProviderAt, Providing, number_in};
ghost use Rattle.shelf.specs.Meaning.{used_at};

use crate::index::Names;
use crate::number::Number;
use crate::provider::{ExportDigest, ProviderDigest};
use shelf::limits::{EXPORTS, PLACES};
use shelf::shelf::Shelf;
use std::array;

impl<'s, S: Shelf> Names<'s, S> {
    // The number of the k-th package that export j of b uses.
    fn used(&self, b: usize, j: usize, k: usize) -> Option<u16>
        ensures { Numbering (meaning_of self.now) (used_at (meaning_of self.now) b j k) result }
    {
        self.number(self.shelf().used(b, j, k)?)
    }

    fn use_digest(&self, b: usize, j: usize, k: usize) -> Number
        ensures { Numbering (meaning_of self.now) (used_at (meaning_of self.now) b j k) (number_in result) }
    {
        Number::of(self.used(b, j, k))
    }

    fn export_digest(&self, b: usize, j: usize) -> Option<ExportDigest>
        ensures { ExportAt (meaning_of self.now) b j result }
    {
        let export = self.shelf().export(b, j)?;
        Some(ExportDigest {
            number: self.export_number(b * EXPORTS + j)?,
            version: export.version,
            used: array::from_fn(|k| self.use_digest(b, j, k)),
        })
    }

    fn provider_digest(&self, b: usize) -> Option<ProviderDigest>
        ensures { ProviderAt (meaning_of self.now) b result }
    {
        Some(ProviderDigest {
            version: self.shelf().version(b)?,
            exports: array::from_fn(|j| self.export_digest(b, j)),
        })
    }

    pub(crate) fn providers(&self) -> [Option<ProviderDigest>; PLACES]
        ensures { Providing (meaning_of self.now) result }
    {
        array::from_fn(|b| self.provider_digest(b))
    }
}
