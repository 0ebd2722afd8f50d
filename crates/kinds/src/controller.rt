// The numbers of controllers.
ghost use Rattle.std.specs.Prelude.{◌≡◌, Some};
ghost use Rattle.kinds.specs.Controller.{before, controller, numbered};
ghost use Rattle.std.proofs.Common.{rules};
ghost use Rattle.kinds.specs.Commas.{controller-lacks};
ghost use Rattle.kinds.specs.Printed.{controller_text};

use crate::kind::{FromText, Readable};
use crate::number::read_u16;
use std::fmt;

// A controller's number, 0 to 65,535.
#[derive(Clone, Copy, Debug, Default, PartialEq, Eq, PartialOrd, Ord)]
pub struct ControllerNumber(pub u16);

impl ControllerNumber {
    // The library's `<`, in the words of the rules: the lower of two numbers.
    pub fn is_below(&self, other: &ControllerNumber) -> bool
        ensures { result ≡ before self.now other.now }
    {
        self < other
    }
}

impl fmt::Display for ControllerNumber {
    ghost output = { λ c. Some (controller_text c) };

    fn fmt<W: fmt::Write>(&self, f: &mut fmt::Formatter<W>) -> fmt::Result {
        write!(f, "{}", self.0)
    }
}

impl FromText for ControllerNumber {
    ghost missing = { numbered 0 };

    ghost reads = { controller };

    fn missing() -> ControllerNumber {
        ControllerNumber::default()
    }

    fn read(text: &[u8]) -> Option<ControllerNumber> {
        Some(ControllerNumber(read_u16(text)?))
    }
}

impl Readable for ControllerNumber {
    ghost apart = { Prim.search rules };

    ghost lowest = { Prim.search rules };

    ghost commaless = { controller-lacks };
}
