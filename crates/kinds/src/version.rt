// Versions of bundles and packages.
ghost use Rattle.std.specs.Prelude.{◌≡◌, drop, Some};
ghost use Rattle.text.specs.Left.{left};
ghost use Rattle.kinds.specs.Version.{lower, front, closes, version};
ghost use Rattle.std.proofs.Common.{rules};
ghost use Rattle.kinds.specs.Commas.{version-lacks};
ghost use Rattle.kinds.specs.Printed.{version_text};

use crate::kind::{FromText, Readable};
use crate::number::read_u16;
use std::fmt;
use text::bytes::is_word;
use text::pieces::Pieces;

// Three numbers that compare in this order.
#[derive(Clone, Copy, Debug, Default, PartialEq, Eq, PartialOrd, Ord)]
pub struct Version {
    pub major: u16,
    pub minor: u16,
    pub micro: u16,
}

impl Version {
    // The library's `<`, in the words of the rules: the lower by major, then by minor, then by micro.
    pub fn is_below(&self, other: &Version) -> bool
        ensures { result ≡ lower self.now other.now }
    {
        self < other
    }
}

impl fmt::Display for Version {
    ghost output = { λ v. Some (version_text v) };

    fn fmt<W: fmt::Write>(&self, f: &mut fmt::Formatter<W>) -> fmt::Result {
        write!(f, "{}.{}.{}", self.major, self.minor, self.micro)
    }
}

impl FromText for Version {
    ghost missing = { record { major = 0; minor = 0; micro = 0 } };

    ghost reads = { version };

    fn missing() -> Version {
        Version::default()
    }

    fn read(text: &[u8]) -> Option<Version> {
        let mut parts = Pieces::plain(text, b'.');
        let major = next_number(&mut parts)?;
        let minor = next_number(&mut parts)?;
        let micro = next_number(&mut parts)?;
        is_closed(parts).then_some(Version {
            major,
            minor,
            micro,
        })
    }
}

impl Readable for Version {
    ghost apart = { Prim.search rules };

    ghost lowest = { Prim.search rules };

    ghost commaless = { version-lacks };
}

// The next part as a number, 0 where no part is left.
fn next_number(parts: &mut Pieces<'_>) -> Option<u16>
    ensures value { result ≡ front (left parts.old) }
    ensures rest { left parts.new ≡ drop 1 (left parts.old) }
{
    parts.next().map_or(Some(0), read_u16)
}

// Whether nothing follows the three numbers but perhaps a qualifier.
fn is_closed(mut parts: Pieces<'_>) -> bool
    ensures { result ≡ closes (left parts.entry) }
{
    let Some(qualifier) = parts.next() else {
        return true;
    };
    parts.next().is_none() && is_word(qualifier)
}
