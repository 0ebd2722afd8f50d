// Bytes that may and may not stand in a text.
ghost use Rattle.std.specs.Prelude.{◌≡◌};
ghost use Rattle.text.specs.Bytes.{every, lacks, printable};
ghost use Rattle.manifest.specs.Reading.{closed};

use text::bytes::is_printable;

// Whether every byte is printable.
pub fn are_printable(text: &[u8]) -> bool
    ensures { result ≡ every printable text.now }
{
    text.iter().all(|&b| is_printable(b))
}

// Whether there is no double quote.
#[tactic(auto, using(crate::proofs::Strips::lacks_uncontained))]
pub fn lacks_quote(text: &[u8]) -> bool
    ensures { result ≡ lacks 34 text.now }
{
    !text.contains(&b'"')
}

// Whether the text is a line feed alone, or ends with two.
pub fn is_closed(text: &[u8]) -> bool
    ensures { result ≡ closed text.now }
{
    matches!(text, [b'\n'] | [.., b'\n', b'\n'])
}
