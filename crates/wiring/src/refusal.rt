// Why something is refused.

// Why no choice is made for a place.
#[derive(Clone, Copy, Debug, PartialEq, Eq)]
pub enum DecideRefusal {
    NoSuchPlace,
    AllDecided,
}
