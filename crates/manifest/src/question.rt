// The questions that a directory is asked.
ghost use Rattle.std.specs.Prelude.{◌≡◌, Some};
ghost use Rattle.manifest.specs.Numbers.{number_of};
ghost use Rattle.manifest.specs.Words.{asked};

use std::fmt;

// What is wrong where the question is answered no, in the order of asking.
#[derive(Clone, Copy, Debug, PartialEq, Eq)]
pub enum Question {
    // more than 65,536 bytes
    TextTooLong = 1,
    // a byte other than 32 to 126 and line feeds
    StrayByte = 2,
    // the last manifest is not closed by an empty line
    NotClosed = 3,
    // a line that is no header line
    NotAHeader = 5,
    // a known header for the second time in one manifest
    HeaderTwice = 6,
    // a value that does not follow its header's form
    Malformed = 7,
    // a version, range or number that does not read
    Unreadable = 8,
    // a name too long, or too many of something
    OverLimit = 9,
    // a name twice in one value
    NameTwice = 10,
    // a manifest without a symbolic name
    NoSymbolicName = 11,
    // a 65th manifest
    TooManyBundles = 12,
    // an earlier bundle has this name and version
    BundleTwice = 13,
}

impl Question {
    // The number that a report gives.
    pub fn number(self) -> u8
        ensures { result ≡ number_of self }
    {
        self as u8
    }
}

// What is asked, in words.
impl fmt::Display for Question {
    ghost output = { λ question. Some (asked question) };

    fn fmt<W: fmt::Write>(&self, f: &mut fmt::Formatter<W>) -> fmt::Result {
        f.write_str(match self {
            Question::TextTooLong => "is the text at most 65536 bytes?",
            Question::StrayByte => "is every byte 32 to 126 or a line feed?",
            Question::NotClosed => "does the text end with an empty line and its line feed?",
            Question::NotAHeader => "is it a header line (a name, a colon, a space and a value)?",
            Question::HeaderTwice => "is the header new to its manifest?",
            Question::Malformed => "does the value follow the form of its header?",
            Question::Unreadable => "is every version, range and number readable?",
            Question::OverLimit => {
                "are names at most 48 bytes, and exports, used names and needs few enough?"
            }
            Question::NameTwice => "is nothing named twice?",
            Question::NoSymbolicName => "was there a Bundle-SymbolicName?",
            Question::TooManyBundles => "is it at most the 64th manifest?",
            Question::BundleTwice => "has no earlier bundle its name and version?",
        })
    }
}
