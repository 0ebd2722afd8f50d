// Why something is refused.
ghost use Rattle.std.specs.Prelude.{◌≡◌};
ghost use Rattle.shelf.specs.Refusal.{hide_number};

// Why a place is not hidden or shown.
#[derive(Clone, Copy, PartialEq, Eq, Debug)]
pub enum HideRefusal {
    NoSuchPlace = 29,
}

impl HideRefusal {
    // The number that a report gives.
    pub fn number(self) -> u8
        ensures { result ≡ hide_number self }
    {
        self as u8
    }
}

// Why plain values make no shelf.
#[derive(Clone, Copy, PartialEq, Eq, Debug)]
pub enum PlainRefusal {
    LimitBroken,
}

// Why a shelf of plain values is not filled: the same.
pub type FillRefusal = PlainRefusal;
