// How many exports there are on a shelf at most. They are counted through, as many to each place as a bundle may have.
use shelf::limits::{EXPORTS, PLACES};

pub const ALL_EXPORTS: usize = PLACES * EXPORTS;

// How many buckets the names of packages fall into.
pub const BUCKETS: usize = 256;
