// The values of the known headers: each question of the whole value before the next.
ghost use Rattle.std.specs.Prelude.{◌≡◌, ◌≤◌, map};
ghost use Rattle.std.specs.Result.{result_map_both};
ghost use Rattle.manifest.specs.Index.{exports_in, needs_in};
ghost use Rattle.manifest.specs.Numbers.{number_of};
ghost use Rattle.manifest.specs.Stages.{few, need_by};
ghost use Rattle.manifest.specs.Values.{clauses_in, exports_in as exports_of, few_needs, symbolic_name_in};

use crate::entry::ExportEntry;
use crate::header::Grammar;
use crate::items::{Entry, is_short};
use crate::lists::entries;
use crate::names::is_name;
use crate::question::Question;
use crate::twice::has_twice;
use arrayvec::ArrayVec;
use shelf::limits::{EXPORTS, NEEDS};
use shelf::need::Need;

pub fn symbolic_name(value: &[u8]) -> Result<&[u8], Question>
    ensures { result_map_both (λ name. name.now) number_of result ≡ symbolic_name_in value.now }
{
    if !is_name(value) {
        return Err(Question::Malformed);
    }
    if !is_short(value) {
        return Err(Question::OverLimit);
    }
    Ok(value)
}

pub fn exports_of(value: &[u8]) -> Result<ArrayVec<ExportEntry<'_>, EXPORTS>, Question>
    ensures { result_map_both exports_in number_of result ≡ exports_of value.now }
{
    clauses_of(value, Grammar::Exports, 0)
}

// Beside as many needs as the other header has given.
pub fn needs_of(
    value: &[u8],
    grammar: Grammar,
    others: usize,
) -> Result<ArrayVec<Need<'_>, NEEDS>, Question>
    ensures { result_map_both needs_in number_of result ≡ clauses_in grammar (need_by grammar) (few_needs others) (λ n. n.name) value.now }
{
    clauses_of(value, grammar, others)
}

// The frame of all such values: their form, what does not read, the limits, and names that stand twice.
fn clauses_of<'a, T: Entry<'a>, const N: usize>(
    value: &'a [u8],
    grammar: Grammar,
    others: usize,
) -> Result<ArrayVec<T, N>, Question>
    ensures { result_map_both (λ v. map T.said v.items) number_of result ≡ clauses_in grammar (T.reads grammar) (few N T.small others) T.called value.now }
{
    let list = entries(value, grammar)?;
    if list.remaining_capacity() < others {
        return Err(Question::OverLimit);
    }
    if has_twice(list.as_slice()) {
        return Err(Question::NameTwice);
    }
    Ok(list)
}
