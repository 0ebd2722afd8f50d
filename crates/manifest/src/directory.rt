// A whole directory, read into the index.
ghost use Rattle.std.specs.Prelude.{◌≡◌, ◌≤◌, length};
ghost use Rattle.std.specs.Result.{result_map_both};
ghost use Rattle.text.specs.Splitting.{parts};
ghost use Rattle.manifest.specs.Index.{bundles_in};
ghost use Rattle.manifest.specs.Numbers.{first_no};
ghost use Rattle.manifest.specs.Reading.{reading, start, stray_line, walk};
ghost use Rattle.manifest.specs.States.{state_in};

use crate::chars::{are_printable, is_closed};
use crate::limits::LONGEST_TEXT;
use crate::lines::Lines;
use crate::question::Question;
use crate::reader::Reader;
use crate::refusal::Refusal;

// The offset of the first line that has a stray byte.
fn stray_line(text: &[u8]) -> Option<u32>
    requires { length text.now ≤ 65536 }
    ensures { result ≡ stray_line 0 (parts 10 text.now) }
{
    Lines::of(text)
        .find(|(_, line)| !are_printable(line))
        .map(|(offset, _)| offset)
}

// Line by line, from the first.
#[tactic(auto, using(crate::proofs::Walks::walk_is))]
fn read_lines<'a>(text: &'a [u8], reader: &mut Reader<'a>) -> Result<(), Refusal>
    requires { (length text.now ≤ 65536) × (state_in reader.old ≡ start) }
    ensures { result_map_both (λ _. bundles_in reader.new.bundles) first_no result ≡ walk 0 start (parts 10 text.now) }
{
    for (offset, line) in Lines::of(text) {
        reader.line(line).map_err(|question| question.at(offset))?;
    }
    Ok(())
}

// The bundles, or the first question that is answered no. They are left in the reader, which its caller lends: an index is too large a value
// to be handed on for nothing.
#[tactic(auto, unfolding(crate::specs::Reading::reading))]
pub fn read_directory<'a>(text: &'a [u8], reader: &mut Reader<'a>) -> Result<(), Refusal>
    ensures { result_map_both (λ _. bundles_in reader.new.bundles) first_no result ≡ reading text.now }
{
    reader.restart();
    if text.len() > LONGEST_TEXT {
        return Err(Question::TextTooLong.at(0));
    }
    if let Some(offset) = stray_line(text) {
        return Err(Question::StrayByte.at(offset));
    }
    if text.is_empty() {
        return Ok(());
    }
    if !is_closed(text) {
        return Err(Question::NotClosed.at(text.len() as u32));
    }
    read_lines(&text[..text.len() - 1], reader)
}
