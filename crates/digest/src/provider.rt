// What a digest says of bundles as providers.
ghost use Rattle.std.specs.Prelude.{◌<◌};

use crate::number::Number;
use kinds::version::Version;
use shelf::limits::{EXPORTS, USES};

// An export, by the number of its package and those of the packages that it uses, as far as anybody exports them. Numbers have 16 bits
// here, since a digest keeps thousands of them.
#[derive(Clone, Copy)]
pub struct ExportDigest {
    pub number: u16,
    pub version: Version,
    pub used: [Number; USES],
    ghost small: { number < 1024 },
}

#[derive(Clone, Copy)]
pub struct ProviderDigest {
    pub version: Version,
    pub exports: [Option<ExportDigest>; EXPORTS],
}
