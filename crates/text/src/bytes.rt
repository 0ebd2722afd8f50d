// Kinds of bytes, and equality of texts.
ghost use Rattle.std.specs.Prelude.{◌≡◌, Decides};
ghost use Rattle.text.specs.Bytes.{equal, every, is_word, printable, word};

// Letters, digits, `_` and `-`.
pub fn is_word_byte(b: u8) -> bool
    ensures { result ≡ word b }
{
    matches!(b, b'a'..=b'z' | b'A'..=b'Z' | b'0'..=b'9' | b'_' | b'-')
}

// Whether the text has nothing but letters, digits, `_` and `-`.
pub fn is_word_text(text: &[u8]) -> bool
    ensures { result ≡ every word text.now }
{
    text.iter().all(|&b| is_word_byte(b))
}

// Letters, digits, `_` and `-`, at least one.
pub fn is_word(text: &[u8]) -> bool
    ensures { result ≡ is_word text.now }
{
    !text.is_empty() && is_word_text(text)
}

// From the space, 32, to `~`, 126.
pub fn is_printable(b: u8) -> bool
    ensures { result ≡ printable b }
{
    matches!(b, b' '..=b'~')
}

// The library's `==`, in the words of the definitions:
// whether the two texts have the same bytes in the same order.
#[tactic(auto, using(crate::proofs::Equals::equal_is))]
pub fn same_text(a: &[u8], b: &[u8]) -> bool
    ensures same { Decides result (a.now ≡ b.now) }
    ensures value { result ≡ equal a.now b.now }
{
    a == b
}
