// Why a directory was refused.
ghost use Rattle.std.specs.Prelude.{◌≡◌};

use crate::question::Question;

// The first question that was answered no, and the offset of its line.
#[derive(Clone, Copy, Debug, PartialEq, Eq)]
pub struct Refusal {
    pub question: Question,
    pub offset: u32,
}

impl Question {
    // The refusal for a no at that offset.
    pub(crate) fn at(self, offset: u32) -> Refusal
        ensures { result ≡ record { question = self; offset = offset } }
    {
        Refusal {
            question: self,
            offset,
        }
    }
}
