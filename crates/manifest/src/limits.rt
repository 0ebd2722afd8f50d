// How many bytes texts have at most.

// A longer directory is not looked at.
pub const LONGEST_TEXT: usize = 65536;

// The name of a bundle or a package.
pub const LONGEST_NAME: usize = 48;

// The name of a header.
pub const LONGEST_HEADER: usize = 64;
