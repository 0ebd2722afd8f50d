// The digest itself: `making` makes it, and `calls` and `offered` are what it is asked.
use crate::exporters::Exporters;
use crate::need::NeedDigest;
use crate::provider::ProviderDigest;
use places::set::PlaceSet;
use shelf::limits::{NEEDS, PLACES};

pub mod calls;
pub mod making;
pub mod offered;

// For each place what its bundle provides and needs, nothing where there is no bundle. Needs stand beside the providers and not in them,
// since who can serve a need is settled once all providers are known. Some 60 KB.
#[derive(Drop)]
pub struct Digest {
    providers: [Option<ProviderDigest>; PLACES],
    exporters: Exporters,
    fitting: PlaceSet,
    needs: [[Option<NeedDigest>; NEEDS]; PLACES],
}
