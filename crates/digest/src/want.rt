// The name that what a digest says of a need has had from the first.
pub use crate::need::NeedDigest as Want;
