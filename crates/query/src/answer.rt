// What a line such as `version [1.0,2.0) 1.2.0` is answered.
ghost use Rattle.std.specs.Prelude.{◌≡◌, [], ◌∷◌, ◌++◌, map, Some, Ok, Err};
ghost use Rattle.kinds.specs.Order.{below_by};
ghost use Rattle.query.specs.Answers.{answer_to, asked, failure, judged_as, object, subject, verb};
ghost use Rattle.query.specs.Views.{said};

use kinds::controller::ControllerNumber;
use kinds::kind::Readable;
use kinds::range::Range;
use kinds::version::Version;
use std::fmt;
use text::bytes::same_text;
use text::pieces::Pieces;

// Why a line has no answer: the first part of it that cannot be read.
#[derive(Debug, Clone, Copy, PartialEq, Eq)]
pub enum Part {
    Form,
    Kind,
    Range,
    Value,
}

// A range and a value, as they stand in the line.
#[derive(Clone, Copy)]
pub struct Question<'a> {
    pub range: &'a [u8],
    pub value: &'a [u8],
}

#[derive(Debug, Clone, Copy, PartialEq, Eq)]
pub enum Verdict {
    Holds,
    LeavesOut,
}

// What was asked, and whether the range holds the value.
#[derive(Clone, Copy)]
pub struct Answer<'a> {
    pub question: Question<'a>,
    pub verdict: Verdict,
}

// The answer, once the words are told apart.
#[tactic(auto, using(kinds::proofs::Orders::version_order, kinds::proofs::Orders::controller_order))]
fn ask<'a>(kind: &[u8], question: Question<'a>) -> Result<Answer<'a>, Part>
    ensures { said result ≡ asked kind.now question.entry.range.now question.entry.value.now }
{
    if same_text(kind, b"version") {
        judge::<Version>(question)
    } else if same_text(kind, b"controller") {
        judge::<ControllerNumber>(question)
    } else {
        Err(Part::Kind)
    }
}

// The answer for values of one kind.
fn judge<'a, K: Readable>(question: Question<'a>) -> Result<Answer<'a>, Part>
    ensures { said result ≡ judged_as K.FromText.reads (below_by K.cmp) question.entry.range.now question.entry.value.now }
{
    let range = Range::<K>::read(question.range).ok_or(Part::Range)?;
    let value = K::read(question.value).ok_or(Part::Value)?;
    let verdict = if range.holds(&value) {
        Verdict::Holds
    } else {
        Verdict::LeavesOut
    };
    Ok(Answer { question, verdict })
}

impl Part {
    // Why the line has no answer. It is all that is printed: of an answer's three pieces, the first and the third are empty.
    pub fn words(self) -> &'static str
        ensures words { result.now ≡ failure self }
        ensures pieces { result.now ≡ subject (said (Err self)) ++ (verb (said (Err self)) ++ object (said (Err self))) }
    {
        match self {
            Part::Form => "not a kind, a range and a value",
            Part::Kind => "the kind cannot be read",
            Part::Range => "the range cannot be read",
            Part::Value => "the value cannot be read",
        }
    }
}

impl fmt::Display for Part {
    ghost output = { λ part. Some (failure part) };

    fn fmt<W: fmt::Write>(&self, f: &mut fmt::Formatter<W>) -> fmt::Result {
        f.write_str(self.words())
    }
}

impl<'a> Answer<'a> {
    // The answer to a line, which is without its line feed.
    pub fn to(line: &'a [u8]) -> Result<Answer<'a>, Part>
        ensures { said result ≡ answer_to line.now }
    {
        let mut words = Pieces::plain(line, b' ');
        let (Some(kind), Some(range), Some(value), None) = (
            words.next(),
            words.next(),
            words.next(),
            words.next(),
        ) else {
            return Err(Part::Form);
        };
        ask(kind, Question { range, value })
    }

    // The answer is printed in three pieces, and this is the first: the range.
    pub fn subject(self) -> &'a [u8]
        ensures { result.now ≡ subject (said (Ok self.entry)) }
    {
        self.question.range
    }

    // The second piece: what is the case. It may be kept when the line is gone.
    pub fn verb(self) -> &'static [u8]
        ensures { result.now ≡ verb (said (Ok self.entry)) }
    {
        match self.verdict {
            Verdict::Holds => b" holds ",
            Verdict::LeavesOut => b" leaves out ",
        }
    }

    // The third piece: the value.
    pub fn object(self) -> &'a [u8]
        ensures { result.now ≡ object (said (Ok self.entry)) }
    {
        self.question.value
    }

    // The three pieces, one after the other.
    pub fn pieces(&self) -> [&'a [u8]; 3]
        ensures { map (λ piece. piece.now) result ≡ subject (said (Ok self.now)) ∷ verb (said (Ok self.now)) ∷ object (said (Ok self.now)) ∷ [] }
    {
        let verb: &'a [u8] = self.verb();
        [self.subject(), verb, self.object()]
    }
}
