// What is chosen for a need.

// Nothing, or the place of a provider. A type of its own and no `Option<u8>`, since where a need is still open its choice is `None`.
#[derive(Clone, Copy, Debug, Default, PartialEq, Eq)]
pub enum Choice {
    #[default]
    Unwired,
    From(u8),
}
