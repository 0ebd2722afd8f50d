// Versions and ranges, as they stand in a header's value or in a parameter.
ghost use Rattle.std.specs.Prelude.{◌≡◌, Ok};
ghost use Rattle.std.specs.Option.{option_map};
ghost use Rattle.std.specs.Result.{result_map_both};
ghost use Rattle.text.specs.Bytes.{lacks};
ghost use Rattle.manifest.specs.Numbers.{number_of};
ghost use Rattle.manifest.specs.Questions.{asks, gets};
ghost use Rattle.manifest.specs.Stages.{read_or};

use crate::chars::lacks_quote;
use crate::question::Question;
use kinds::kind::FromText;

// What a parameter gives, if that reads; what a missing text stands for where it is not given.
// A closure, since today's check does not cover `T::read` by name, whose result names a type parameter.
pub fn read_or_missing<T: FromText + Drop>(given: Option<&[u8]>) -> Option<T>
    ensures { result ≡ read_or T.missing T.reads (option_map (λ text. text.now) given.entry) }
{
    given.map_or(Some(T::missing()), |text| T::read(text))
}

// A header's value: as in a parameter, any bytes but a double quote follow the form.
pub fn unquoted_value<T: FromText + Drop>(value: &[u8]) -> Result<T, Question>
    ensures { result_map_both (λ x. x) number_of result ≡ asks 7 (lacks 34 value.now) (gets 8 (T.reads value.now) Ok) }
{
    if !lacks_quote(value) {
        return Err(Question::Malformed);
    }
    T::read(value).ok_or(Question::Unreadable)
}
