// Whether a text is a directory.
ghost use Rattle.std.specs.Prelude.{◌≡◌};
ghost use Rattle.std.specs.Result.{result_map_both};
ghost use Rattle.manifest.specs.Numbers.{first_no, no_in};
ghost use Rattle.manifest.specs.Reading.{reading};

use crate::directory::read_directory;
use crate::reader::Reader;
use crate::refusal::Refusal;

// The first question that is answered no, of any text, however long.
pub fn check(text: &[u8]) -> Result<(), Refusal>
    ensures { no_in (result_map_both (λ u. u) first_no result) ≡ no_in (reading text.now) }
{
    read_directory(text, &mut Reader::default())
}
