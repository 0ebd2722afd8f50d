// What follows a key, and what stands in quotes there.
ghost use Rattle.std.specs.Prelude.{◌≡◌};
ghost use Rattle.std.specs.Option.{option_map};
ghost use Rattle.manifest.specs.Parameters.{quoted_after, unquoted as unquoted_of};

use crate::chars::lacks_quote;

// TEXT of `TEXT"`, if that quote is the only one.
#[tactic(auto, using(crate::proofs::Strips::unquoted_stripped))]
pub fn unquoted(text: &[u8]) -> Option<&[u8]>
    ensures { option_map (λ x. x.now) result ≡ unquoted_of text.now }
{
    let inner = text.strip_suffix(b"\"")?;
    lacks_quote(inner).then_some(inner)
}

// TEXT of `KEY"TEXT"`.
#[tactic(auto, using(crate::proofs::Strips::after_stripped))]
pub fn quoted_after<'a>(text: &'a [u8], key: &[u8]) -> Option<&'a [u8]>
    ensures { option_map (λ x. x.now) result ≡ quoted_after key.now text.now }
{
    unquoted(text.strip_prefix(key)?.strip_prefix(b"\"")?)
}
