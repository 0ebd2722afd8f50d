// What a clause is read as.
ghost use Rattle.std.specs.Prelude.{◌≡◌, Bool, [], map, Ok, Option, Some};
ghost use Rattle.std.specs.Option.{option_map, unwrap_or};
ghost use Rattle.std.specs.Result.{result_map_both};
ghost use Rattle.text.specs.Splitting.{parts};
ghost use Rattle.shelf.specs.Lent.{need_of};
ghost use Rattle.shelf.specs.Meaning.{Name, Export, Need as NeedSaid};
ghost use Rattle.manifest.specs.declared.header.Grammar.{Grammar};
ghost use Rattle.manifest.specs.Clauses.{RawClause};
ghost use Rattle.manifest.specs.Index.{export_in, used_in};
ghost use Rattle.manifest.specs.Numbers.{number_of};
ghost use Rattle.manifest.specs.Parts.{names_in, raw_in};
ghost use Rattle.manifest.specs.Stages.{few_names, kept, kind_by, need_by, read_or, short_need, within};
ghost use Rattle.manifest.specs.Questions.{asks, gets};
ghost use Rattle.manifest.specs.Values.{export_of, short_name, small_export};

use crate::clause::RawEntry;
use crate::entry::ExportEntry;
use crate::header::Grammar;
use crate::limits::LONGEST_NAME;
use crate::question::Question;
use crate::texts::read_or_missing;
use arrayvec::ArrayVec;
use kinds::kind::FromText;
use shelf::limits::USES;
use shelf::need::{Need, NeedKind, Visibility};
use text::pieces::Pieces;

pub fn is_short(name: &[u8]) -> bool
    ensures { result ≡ short_name name.now }
{
    name.len() <= LONGEST_NAME
}

// What each clause of a header's value is read as: an export or a need.
pub trait Entry<'a>: Default + Drop {
    ghost Said: { Type 0 };

    ghost said: { Self → Said };

    ghost called: { Said → Name };

    // what a clause reads as, if it reads at all
    ghost reads: { Grammar → RawClause → Option Said };

    // whether it keeps the limits
    ghost small: { Said → Bool };

    fn name(&self) -> &'a [u8]
        ensures { result.now ≡ called (said self.now) };

    // The clause, if it reads and keeps the limits.
    fn from_clause(clause: RawEntry<'a>, grammar: Grammar) -> Result<Self, Question>
        ensures { result_map_both said number_of result ≡ kept small (reads grammar (raw_in clause.entry)) };
}

impl<'a> Entry<'a> for ExportEntry<'a> {
    ghost Said = { Export };

    ghost said = { export_in };

    ghost called = { λ e. e.name };

    ghost reads = { λ g. export_of };

    ghost small = { small_export };

    fn name(&self) -> &'a [u8] {
        self.name
    }

    fn from_clause(clause: RawEntry<'a>, _grammar: Grammar) -> Result<ExportEntry<'a>, Question> {
        let version = clause.read()?;
        let uses = used_names(clause.uses)?;
        Ok(ExportEntry {
            name: clause.name,
            version,
            uses,
        })
    }
}

impl<'a> Entry<'a> for Need<'a> {
    ghost Said = { NeedSaid };

    ghost said = { need_of };

    ghost called = { λ n. n.name };

    ghost reads = { need_by };

    ghost small = { short_need };

    fn name(&self) -> &'a [u8] {
        self.name
    }

    fn from_clause(clause: RawEntry<'a>, grammar: Grammar) -> Result<Need<'a>, Question> {
        let range = clause.read()?;
        Ok(Need {
            kind: kind_of(grammar, clause.visibility),
            name: clause.name,
            range,
            resolution: clause.resolution.unwrap_or_default(),
        })
    }
}

impl RawEntry<'_> {
    // What its version's text reads as, if its name is short enough.
    fn read<T: FromText + Drop>(&self) -> Result<T, Question>
        ensures { result_map_both (λ x. x) number_of result ≡ gets 8 (read_or T.missing T.reads (raw_in self.now).version) (λ x. asks 9 (short_name self.now.name.now) (Ok x)) }
    {
        let version = read_or_missing(self.version).ok_or(Question::Unreadable)?;
        if !is_short(self.name) {
            return Err(Question::OverLimit);
        }
        Ok(version)
    }
}

// The names that an export uses, if they keep the limits; none where none are given.
fn used_names(given: Option<&[u8]>) -> Result<Option<ArrayVec<&[u8], USES>>, Question>
    ensures { result_map_both used_in number_of result ≡ kept few_names (Some (unwrap_or (option_map names_in given.entry) [])) }
{
    let Some(list) = given else {
        return Ok(None);
    };
    let found = names(list).ok_or(Question::OverLimit)?;
    Ok(Some(found))
}

// The names between commas.
fn names(list: &[u8]) -> Option<ArrayVec<&[u8], USES>>
    ensures { option_map (λ v. map (λ u. u.now) v.items) result ≡ within few_names (parts 44 list.now) }
{
    let mut found = ArrayVec::new();
    for name in Pieces::plain(list, b',') {
        if !is_short(name) {
            return None;
        }
        found.try_push(name).ok()?;
    }
    Some(found)
}

// What a clause of the header is, as a need.
fn kind_of(grammar: Grammar, visibility: Option<Visibility>) -> NeedKind
    ensures { result ≡ kind_by grammar visibility }
{
    match grammar {
        Grammar::Exports | Grammar::Imports => NeedKind::Import,
        Grammar::Requires => NeedKind::Require(visibility.unwrap_or_default()),
    }
}
