// The headers of a manifest.

// The known headers, and all others together: a line of another header is read too, and says nothing.
#[derive(Clone, Copy, Debug, PartialEq, Eq)]
pub enum Header {
    SymbolicName,
    BundleVersion,
    Controller,
    ExportPackage,
    ImportPackage,
    RequireBundle,
    Unknown,
}

// The three headers whose values are clauses, each with parameters of its own. It is handed down to where one `match` picks a key, the
// parameters or a kind: as methods those would stand apart from what they are part of.
#[derive(Clone, Copy)]
pub enum Grammar {
    Exports,
    Imports,
    Requires,
}
