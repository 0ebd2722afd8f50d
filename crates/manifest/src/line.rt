// Header lines.
ghost use Rattle.std.specs.Prelude.{◌≡◌};
ghost use Rattle.std.specs.Option.{option_map};
ghost use Rattle.manifest.specs.Drafts.{line_in};
ghost use Rattle.manifest.specs.Headers.{header_line, header_named};

use crate::header::Header;
use crate::keywords::named;
use crate::limits::LONGEST_HEADER;
use text::bytes::is_word;
use text::pieces::find;

// A header and its value.
#[derive(Clone, Copy)]
pub struct LineEntry<'a> {
    pub header: Header,
    pub value: &'a [u8],
}

// The known headers.
const HEADERS: [(&[u8], Header); 6] = [
    (b"Bundle-SymbolicName", Header::SymbolicName),
    (b"Bundle-Version", Header::BundleVersion),
    (b"X-Controller", Header::Controller),
    (b"Export-Package", Header::ExportPackage),
    (b"Import-Package", Header::ImportPackage),
    (b"Require-Bundle", Header::RequireBundle),
];

fn header_named(name: &[u8]) -> Header
    ensures { result ≡ header_named name.now }
{
    named(name, &HEADERS).unwrap_or(Header::Unknown)
}

// A name, a colon, one space, and a value of at least one byte.
pub fn header_line(line: &[u8]) -> Option<LineEntry<'_>>
    ensures { option_map line_in result ≡ header_line line.now }
{
    let colon = find(line, b':', false)?;
    let (name, rest) = line.split_at(colon);
    let value = rest.strip_prefix(b": ")?;
    if !is_word(name) || colon > LONGEST_HEADER || value.is_empty() {
        return None;
    }
    Some(LineEntry {
        header: header_named(name),
        value,
    })
}
