// Why something is refused.

// Why a record is not pushed.
#[derive(Clone, Copy, PartialEq, Eq, Debug)]
pub enum PushRefusal {
    Full,
}
