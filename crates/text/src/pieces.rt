// The pieces of a text between separators, one after the other.
ghost use Rattle.std.specs.Prelude.{◌≡◌, true, false, ◌∷◌, length};
ghost use Rattle.std.specs.List.{AllByRecursion};
ghost use Rattle.text.specs.Bytes.{lacks};
ghost use Rattle.text.specs.Left.{left, left_of};
ghost use Rattle.std.specs.Iterator.{YieldsFirstRef, item_count};
ghost use Rattle.text.specs.Splitting.{Finds, parts, reach, rejoined, split};

// A cursor over the pieces that are left; a text has one piece more than it has separators.
// The library's `split` does not serve: it minds no quotes, and no result can name its closure's type.
#[derive(Clone, Copy)]
pub struct Pieces<'a> {
    rest: Option<&'a [u8]>,
    separator: u8,
    quotes: bool,
}

impl<'a> Pieces<'a> {
    // The parts between the separators, wherever they stand.
    #[tactic(auto, using(crate::proofs::Splits::split_rejoined, crate::proofs::Splits::parts_apart))]
    pub fn plain(text: &'a [u8], separator: u8) -> Pieces<'a>
        ensures pieces { left result ≡ parts separator text.now }
        ensures whole { rejoined separator (left result) ≡ text.now }
        ensures apart { AllByRecursion (λ piece. lacks separator piece ≡ true) (left result) }
    {
        Pieces {
            rest: Some(text),
            separator,
            quotes: false,
        }
    }

    // The pieces between the separators that stand outside double quotes.
    #[tactic(auto, using(crate::proofs::Splits::split_rejoined, crate::proofs::Splits::split_apart))]
    pub fn outside_quotes(text: &'a [u8], separator: u8) -> Pieces<'a>
        ensures pieces { left result ≡ split true separator false text.now }
        ensures whole { rejoined separator (left result) ≡ text.now }
        ensures apart { AllByRecursion (λ piece. reach true separator false piece ≡ length piece) (left result) }
    {
        Pieces {
            rest: Some(text),
            separator,
            quotes: true,
        }
    }
}

// Each piece in turn, and from the end on nothing.
impl<'a> Iterator for Pieces<'a> {
    type Item = &'a [u8];

    ghost next_gives = { YieldsFirstRef left };

    ghost remaining = { item_count left };

    fn next(&mut self) -> Option<&'a [u8]> {
        let (piece, rest) = first_piece(self.rest?, self.separator, self.quotes);
        self.rest = rest;
        Some(piece)
    }
}

// The first piece and what follows its separator, if there is one.
#[tactic(auto, using(crate::proofs::Splits::split_at, crate::proofs::Splits::split_none))]
fn first_piece(text: &[u8], separator: u8, quotes: bool) -> (&[u8], Option<&[u8]>)
    ensures { split quotes separator false text.now ≡ result.0.now ∷ left_of quotes separator result.1 }
{
    match find(text, separator, quotes) {
        Some(end) => (&text[..end], Some(&text[end + 1..])),
        None => (text, None),
    }
}

// Where the first separator stands, if there is one; with `quotes`, those inside double quotes do not count. One function with a flag,
// since one definition, `reach`, cuts both ways.
pub fn find(text: &[u8], separator: u8, quotes: bool) -> Option<usize>
    ensures { Finds (reach quotes separator false text.now) (length text.now) result }
{
    let mut inside = false;
    for (i, &b) in text.iter().enumerate() {
        if b == separator && !inside {
            return Some(i);
        }
        if quotes && b == b'"' {
            inside = !inside;
        }
    }
    None
}
