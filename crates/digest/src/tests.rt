// A panel that imports what a meter exports.
use crate::digest::making::digest;
use kinds::controller::ControllerNumber;
use shelf::need::NeedKind;
use shelf::plain::PlainShelf;
use shelf::samples::PANEL_AND_METER;
use std::test::Fail;

#[test]
fn of_a_panel_and_a_meter(rt: HostRuntime) -> Result<(), Fail> {
    let shelf = PlainShelf::new(PANEL_AND_METER)?;
    let d = digest(&shelf, ControllerNumber(7));
    assert_eq!(rt; d.exported(2, 0), Some(32));
    assert_eq!(rt; d.imported(0, 0), d.used(2, 0, 0));
    assert!(rt; d.exporters(32).contains(2) && d.candidates(0, 0).contains(2));
    assert!(rt; d.is_own(2, 0) && !d.is_own(0, 0) && d.is_optional(0, 0));
    assert_eq!(rt; d.role(0, 0), Some(NeedKind::Import));
    assert_eq!(rt; d.role(1, 0), None);
    assert!(rt; d.offered(0, 0, 2).is_some() && d.offered(2, 0, 0).is_none());
    Ok(())
}
