// A range over any readable kind: which values it holds, and how it is read from text.
ghost use Rattle.std.specs.Prelude.{◌≡◌, true, false, Decides};
ghost use Rattle.std.specs.declared.cmp.Ordering.TheVariants.{Less, Greater};
ghost use Rattle.kinds.specs.declared.range.End.{End};
ghost use Rattle.kinds.specs.declared.range.Range.TheVariants.{AtLeast, Between};
ghost use Rattle.kinds.specs.Order.{below_by};
ghost use Rattle.kinds.specs.Range.{Above, Holds, Under, above, holding, under, value_of};
ghost use Rattle.kinds.specs.Printed.{bracket, range_output};
ghost use Rattle.kinds.specs.RangeText.{RangeText, Only, between, bracketing, ceiling_of, end_of, floor_of, range};

use crate::kind::{FromText, Readable};
use std::cmp::Ordering;
use std::fmt;
use text::pieces::find;

// Where a range ends, on either side: with that value itself in it, or without.
// Not the library's `Bound`, since no text says an unbounded end.
#[derive(Clone, Copy, Debug, PartialEq, Eq)]
pub enum End<K> {
    Included(K),
    Excluded(K),
}

// The values from a floor up, and perhaps up to a ceiling. Without a ceiling the floor is always included.
#[derive(Clone, Copy, Debug, PartialEq, Eq)]
pub enum Range<K> {
    AtLeast(K),
    Between(End<K>, End<K>),
}

impl<K: Readable> Range<K> {
    // What a missing range means.
    pub fn all() -> Range<K>
        ensures means { result ≡ AtLeast K.FromText.missing }
        ensures everything { (v : K) → Holds (below_by K.cmp) result v }
    {
        Range::AtLeast(K::missing())
    }

    // Whether the value is in the range.
    pub fn holds(&self, value: &K) -> bool
        ensures membership { Decides result (Holds (below_by K.cmp) self.now value.now) }
        ensures value { result ≡ holding (below_by K.cmp) self.now value.now }
        ensures nothing { (floor ceiling : End K) → self.now ≡ Between floor ceiling → below_by K.cmp (value_of ceiling) (value_of floor) ≡ true → result ≡ false }
    {
        match self {
            Range::AtLeast(floor) => value >= floor,
            Range::Between(floor, ceiling) => {
                floor.admits(value, Ordering::Greater) && ceiling.admits(value, Ordering::Less)
            }
        }
    }

    // `[1,2)`, or a single value, which means that value or above.
    pub fn read(text: &[u8]) -> Option<Range<K>>
        ensures value { result ≡ range K.FromText.reads text.now }
        ensures form { Only (RangeText K.FromText.reads text.now) result }
    {
        match find(text, b',', false) {
            Some(comma) => read_between(&text[..comma], &text[comma + 1..]),
            None => K::read(text).map(Range::AtLeast),
        }
    }
}

impl<K: Readable> FromText for Range<K> {
    ghost missing = { AtLeast K.FromText.missing };

    ghost reads = { range K.FromText.reads };

    fn missing() -> Range<K> {
        Range::all()
    }

    fn read(text: &[u8]) -> Option<Range<K>> {
        Range::read(text)
    }
}

// Written out, since no derive serves a variant with a field.
impl<K: Readable> Default for Range<K> {
    ghost is_default = { λ r. r ≡ AtLeast K.FromText.missing };

    fn default() -> Range<K> {
        Range::missing()
    }
}

impl<K: fmt::Display> fmt::Display for Range<K> {
    ghost output = { λ r. range_output K.Display.output r };

    fn fmt<W: fmt::Write>(&self, f: &mut fmt::Formatter<W>) -> fmt::Result {
        match self {
            Range::AtLeast(floor) => write!(f, "{floor}"),
            Range::Between(floor, ceiling) => {
                let (open, low) = floor.marked('[', '(');
                let (close, high) = ceiling.marked(']', ')');
                write!(f, "{open}{low},{high}{close}")
            }
        }
    }
}

impl<K> End<K> {
    // The one of a side's two brackets that marks the end, and its value.
    fn marked(&self, square: char, round: char) -> (char, &K)
        ensures mark { result.0 ≡ bracket square round self.now }
        ensures value { result.1.now ≡ value_of self.now }
    {
        match self {
            End::Included(value) => (square, value),
            End::Excluded(value) => (round, value),
        }
    }
}

impl<K: Readable> End<K> {
    // Whether the value stands on that side of the end, or is the end where that is included.
    fn admits(&self, value: &K, side: Ordering) -> bool
        ensures floor { side ≡ Greater → result ≡ above (below_by K.cmp) self.now value.now }
        ensures ceiling { side ≡ Less → result ≡ under (below_by K.cmp) self.now value.now }
    {
        match self {
            End::Included(end) => value.cmp(end) != side.reverse(),
            End::Excluded(end) => value.cmp(end) == side,
        }
    }
}

// The range between an opening bracket with a floor and a ceiling with a closing bracket.
fn read_between<K: Readable>(floor: &[u8], ceiling: &[u8]) -> Option<Range<K>>
    ensures { result ≡ between (floor_of K.FromText.reads floor.now) (ceiling_of K.FromText.reads ceiling.now) }
{
    let (open, floor) = floor.split_first()?;
    let (close, ceiling) = ceiling.split_last()?;
    let floor = read_end(*open, b'[', b'(', floor)?;
    let ceiling = read_end(*close, b']', b')', ceiling)?;
    Some(Range::Between(floor, ceiling))
}

// An end after its bracket: of a side's two, the square one includes the value, and the round one does not. They are no struct, since
// they are bytes here and characters where they are printed.
fn read_end<K: Readable>(bracket: u8, square: u8, round: u8, value: &[u8]) -> Option<End<K>>
    ensures { result ≡ end_of (bracketing square round bracket) (K.FromText.reads value.now) }
{
    if bracket == square {
        K::read(value).map(End::Included)
    } else if bracket == round {
        K::read(value).map(End::Excluded)
    } else {
        None
    }
}
