// A line of the input.
ghost use Rattle.std.specs.Prelude.{◌≡◌};
ghost use Rattle.query.specs.Answers.{unfed};

// The line without the line feed that ends it; the last line of an input may have none.
pub fn without_line_feed(line: &[u8]) -> &[u8]
    ensures { result.now ≡ unfed line.now }
{
    line.strip_suffix(b"\n").unwrap_or(line)
}
