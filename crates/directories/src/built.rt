// Directories that are too long to write down.
use manifest::check::check;
use manifest::question::Question;
use std::alloc::{AllocError, Global};
use std::fmt::Write;

// The question that refuses the text, its number and the offset, if one does.
pub(crate) fn refusal(text: &[u8]) -> Option<(Question, u8, u32)> {
    check(text).err().map(|refusal| (refusal.question, refusal.question.number(), refusal.offset))
}

// A header with that many clauses of one letter each, 26 at most; none without a clause.
pub(crate) fn push_clauses(
    text: &mut String,
    header: &str,
    count: usize,
) -> Result<(), AllocError> {
    if count == 0 {
        return Ok(());
    }
    text.push_str(header)?;
    for (i, letter) in ('a'..='z').take(count).enumerate() {
        if i > 0 {
            text.push(',')?;
        }
        text.push(letter)?;
    }
    text.push('\n')
}

// A bundle with those headers in that order, each with so many clauses.
pub(crate) fn with_headers(heap: Global, headers: &[(&str, usize)]) -> Result<String, AllocError> {
    let mut text = String::new(heap);
    for &(header, count) in headers {
        push_clauses(&mut text, header, count)?;
    }
    text.push_str("Bundle-SymbolicName: s\n\n")?;
    Ok(text)
}

// So many bundles, each of another version, with up to three leading zeros.
pub(crate) fn bundles(heap: Global, count: usize) -> Result<String, AllocError> {
    let mut text = String::new(heap);
    for i in 0..count {
        text.push_str("Bundle-SymbolicName: s\nBundle-Version: ")?;
        text.push_str(&"0".repeat(heap, i % 4)?)?;
        write!(text, "{i:02}\n\n")?;
    }
    Ok(text)
}

// A bundle whose header has that value, of one letter repeated.
pub(crate) fn with_value(
    heap: Global,
    before: &str,
    count: usize,
    after: &str,
) -> Result<String, AllocError> {
    let mut text = String::new(heap);
    text.push_str(before)?;
    text.push_str(&"a".repeat(heap, count)?)?;
    text.push_str(after)?;
    Ok(text)
}
