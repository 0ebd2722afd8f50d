// The keys of parameters, and words that stand for something.
ghost use Rattle.std.specs.Prelude.{◌≡◌};
ghost use Rattle.manifest.specs.Parameters.{version_key};
ghost use Rattle.manifest.specs.Stages.{stands_for};

use crate::header::Grammar;
use text::bytes::same_text;

pub fn version_key(grammar: Grammar) -> &'static [u8]
    ensures { result.now ≡ version_key grammar }
{
    match grammar {
        Grammar::Exports | Grammar::Imports => b"version=",
        Grammar::Requires => b"bundle-version=",
    }
}

// What the word stands for in the table.
// Not a `match` on byte strings: each byte that differs is a goal of its own there, and stays open.
pub fn named<T: Copy>(word: &[u8], table: &[(&[u8], T)]) -> Option<T>
    ensures { result ≡ stands_for word.now table.now }
{
    table
        .iter()
        .find(|entry| same_text(word, entry.0))
        .map(|entry| entry.1)
}
