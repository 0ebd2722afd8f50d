// What a digest says of a need.
use places::set::PlaceSet;
use shelf::need::{NeedKind, Resolution};

// What it imports is the number of a package, none if nobody exports it or the need is no import; and only an import is `own`. Flat and no
// enum, so that each question reads one field. The set stands first, so that no room is lost between the fields.
#[derive(Clone, Copy)]
pub struct NeedDigest {
    pub candidates: PlaceSet,
    pub imports: Option<u16>,
    pub kind: NeedKind,
    pub resolution: Resolution,
    pub own: bool,
}
