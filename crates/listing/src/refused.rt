// Why a directory is refused: the number and the offset, and for a person the line and the question in words.
use manifest::refusal::Refusal;
use std::io;
use std::io::Write;
use text::bytes::is_printable;
use text::pieces::Pieces;

pub(crate) fn print_refusal(rt: &HostRuntime, text: &[u8], refusal: Refusal) -> io::Result<()> {
    let Refusal { question, offset } = refusal;
    let number = question.number();
    println!(rt; "refused {number} at {offset}")?;
    print_line(rt, text, offset as usize)?;
    println!(rt; "asked: {question}")
}

// The line that starts there, if one does; a byte that cannot be printed is shown as `?`.
// Byte by byte, since the line as it is shown would take a buffer as long as a text may be.
fn print_line(rt: &HostRuntime, text: &[u8], offset: usize) -> io::Result<()> {
    if offset >= text.len() {
        return Ok(());
    }
    let line = Pieces::plain(&text[offset..], b'\n')
        .next()
        .unwrap_or_default();
    print!(rt; "line: ")?;
    let mut out = rt.stdout();
    for &byte in line {
        let shown = if is_printable(byte) { byte } else { b'?' };
        out.write_all(&[shown])?;
    }
    out.write_all(b"\n")
}
