// Lists of which some items may not stand before others.
ghost use Rattle.std.specs.Prelude.{Decides};
ghost use Rattle.shelf.specs.Limits.{Clear};

// An item of such a list.
pub trait Listed {
    // the second may not stand anywhere after the first
    ghost barred: { Self → Self → Type 0 };

    fn bars(&self, later: &Self) -> bool
        ensures { Decides result (barred self.now later.now) };
}

// Whether every item may stand where it does.
pub fn is_clear<T: Listed>(items: &[T]) -> bool
    ensures { Decides result (Clear T.Listed.barred items.now) }
{
    let mut rest = items;
    while let Some((item, later)) = rest.split_first() {
        if later.iter().any(|other| item.bars(other)) {
            return false;
        }
        rest = later;
    }
    true
}
