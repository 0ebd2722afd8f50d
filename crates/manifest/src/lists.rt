// The clauses of a value, one by one.
ghost use Rattle.std.specs.Prelude.{◌≡◌, map};
ghost use Rattle.std.specs.Result.{result_map_both};
ghost use Rattle.manifest.specs.Clauses.{form};
ghost use Rattle.manifest.specs.Numbers.{number_of};
ghost use Rattle.manifest.specs.Stages.{clauses_kept};

use crate::clauses::clause;
use crate::header::Grammar;
use crate::items::Entry;
use crate::question::Question;
use arrayvec::ArrayVec;
use text::pieces::Pieces;

// What each clause is read as. One that does not read or that breaks a limit is kept in mind: a later one that does not follow the form is
// answered first, and then one that does not read.
pub fn entries<'a, T: Entry<'a>, const N: usize>(
    value: &'a [u8],
    grammar: Grammar,
) -> Result<ArrayVec<T, N>, Question>
    ensures { result_map_both (λ v. map T.said v.items) number_of result
        ≡ clauses_kept N T.small (T.reads grammar) (form grammar value.now) }
{
    let mut list = ArrayVec::new();
    let mut unread = false;
    let mut over = false;
    for piece in Pieces::outside_quotes(value, b',') {
        let raw = clause(piece, grammar).ok_or(Question::Malformed)?;
        match T::from_clause(raw, grammar) {
            Ok(entry) => over |= list.try_push(entry).is_err(),
            Err(Question::OverLimit) => over = true,
            Err(_) => unread = true,
        }
    }
    if unread {
        return Err(Question::Unreadable);
    }
    if over {
        return Err(Question::OverLimit);
    }
    Ok(list)
}
