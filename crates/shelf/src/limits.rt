// The most of each that a shelf, a bundle and an export may have.
pub use places::set::PLACES;

pub const EXPORTS: usize = 16;

pub const NEEDS: usize = 16;

pub const USES: usize = 8;
