// One header more of the manifest that is open.
ghost use Rattle.std.specs.Prelude.{◌≡◌};
ghost use Rattle.std.specs.Result.{result_map_both};
ghost use Rattle.manifest.specs.Drafts.{headers_in};
ghost use Rattle.manifest.specs.Headers.{header_step, with_header};
ghost use Rattle.manifest.specs.Numbers.{number_of};
ghost use Rattle.manifest.specs.Slots.{Taken};
ghost use Rattle.manifest.specs.Together.{given};
ghost use Rattle.manifest.specs.Values.{controllers_in, version_in};

use crate::draft::Draft;
use crate::header::{Grammar, Header};
use crate::line::header_line;
use crate::question::Question;
use crate::texts::unquoted_value;
use crate::values::{exports_of, needs_of, symbolic_name};
use arrayvec::ArrayVec;
use shelf::limits::NEEDS;
use shelf::need::Need;

// The value of a header that is new to its manifest; where it is there already, nothing is read.
fn once<T: Drop, F: FnOnce() -> Result<T, Question>>(
    slot: &mut Option<T>,
    read: F,
) -> Result<(), Question>
    requires { F.IsAlwaysCallable read }
    ensures { Taken (F.post read) slot.old slot.new result }
{
    if slot.is_some() {
        return Err(Question::HeaderTwice);
    }
    *slot = Some(read()?);
    Ok(())
}

// How many needs a header has given.
fn how_many(needs: &Option<ArrayVec<Need<'_>, NEEDS>>) -> usize
    ensures { result ≡ given needs.now }
{
    needs.as_ref().map_or(0, |needs| needs.len())
}

// The draft with what one header says. Two closures have a clause, since one generic function reads for both.
#[tactic(auto, using(crate::proofs::Together::read_few))]
fn with_header<'a>(draft: &mut Draft<'a>, header: Header, value: &'a [u8]) -> Result<(), Question>
    ensures { result_map_both (λ _. headers_in draft.new) number_of result ≡ with_header (headers_in draft.old) header value.now }
{
    match header {
        Header::SymbolicName => once(&mut draft.name, || symbolic_name(value)),
        Header::BundleVersion => once(
            &mut draft.version,
            ||
                ensures { result_map_both (λ v. v) number_of result ≡ version_in value.entry.now }
            { unquoted_value(value) },
        ),
        Header::Controller => once(
            &mut draft.controllers,
            ||
                ensures { result_map_both (λ c. c) number_of result ≡ controllers_in value.entry.now }
            { unquoted_value(value) },
        ),
        Header::ExportPackage => once(&mut draft.exports, || exports_of(value)),
        Header::ImportPackage => {
            let required = how_many(&draft.required);
            once(
                &mut draft.imports,
                || needs_of(value, Grammar::Imports, required),
            )
        }
        Header::RequireBundle => {
            let imported = how_many(&draft.imports);
            once(
                &mut draft.required,
                || needs_of(value, Grammar::Requires, imported),
            )
        }
        Header::Unknown => Ok(()),
    }
}

// The headers after a line.
pub fn header_step<'a>(draft: &mut Draft<'a>, line: &'a [u8]) -> Result<(), Question>
    ensures { result_map_both (λ _. headers_in draft.new) number_of result ≡ header_step (headers_in draft.old) line.now }
{
    let entry = header_line(line).ok_or(Question::NotAHeader)?;
    with_header(draft, entry.header, entry.value)
}
