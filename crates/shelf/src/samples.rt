// Sample values, for tests and examples.
use crate::need::{Need, NeedKind, Resolution};
use crate::values::{PlainBundle, PlainExport};
use kinds::controller::ControllerNumber;
use kinds::range::Range;
use kinds::version::Version;

pub const ONE: Version = Version {
    major: 1,
    minor: 0,
    micro: 0,
};

pub const LAMP: PlainExport<'static> = PlainExport {
    name: b"lamp",
    version: ONE,
    uses: &[b"lamp"],
};

pub const NEEDS_LAMP: Need<'static> = Need {
    kind: NeedKind::Import,
    name: b"lamp",
    range: Range::AtLeast(ONE),
    resolution: Resolution::Optional,
};

pub const METER: PlainBundle<'static> = PlainBundle {
    name: b"meter",
    version: ONE,
    controllers: Range::AtLeast(ControllerNumber(7)),
    exports: &[LAMP],
    needs: &[NEEDS_LAMP],
};

pub const PANEL: PlainBundle<'static> = PlainBundle {
    name: b"panel",
    exports: &[],
    ..METER
};

// A panel that imports what a meter exports, and a place between them that is absent.
pub const PANEL_AND_METER: &[Option<PlainBundle<'static>>] = &[Some(PANEL), None, Some(METER)];
