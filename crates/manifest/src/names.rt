// Names: words joined by single dots.
ghost use Rattle.std.specs.Prelude.{◌≡◌};
ghost use Rattle.text.specs.Splitting.{parts};
ghost use Rattle.text.specs.Bytes.{is_word};
ghost use Rattle.manifest.specs.Names.{all, is_name};

use text::bytes::is_word;
use text::pieces::Pieces;

pub fn is_name(text: &[u8]) -> bool
    ensures { result ≡ is_name text.now }
{
    Pieces::plain(text, b'.').all(is_word)
}

// Whether the text is names joined by commas.
pub fn are_names(text: &[u8]) -> bool
    ensures { result ≡ all is_name (parts 44 text.now) }
{
    Pieces::plain(text, b',').all(is_name)
}
