// A panel that imports what a meter exports, and choices for its needs.
use crate::candidates::{Target, is_own};
use crate::choice::Choice;
use crate::partial::PartialWiring;
use crate::refusal::DecideRefusal;
use crate::table::ChoiceTable;
use kinds::controller::ControllerNumber;
use shelf::need::{Need, Resolution};
use shelf::plain::PlainShelf;
use shelf::samples;
use shelf::values::{PlainBundle, PlainExport};
use std::test::Fail;

const LAMP: PlainExport<'static> = PlainExport {
    uses: &[],
    ..samples::LAMP
};

const NEEDS_LAMP: Need<'static> = Need {
    resolution: Resolution::Mandatory,
    ..samples::NEEDS_LAMP
};

const METER: PlainBundle<'static> = PlainBundle {
    exports: &[LAMP],
    needs: &[NEEDS_LAMP],
    ..samples::METER
};

const PANEL: PlainBundle<'static> = PlainBundle {
    needs: &[NEEDS_LAMP],
    ..samples::PANEL
};

const PLACES: &[Option<PlainBundle<'static>>] = &[Some(PANEL), None, Some(METER)];

#[test]
fn what_is_offered(rt: HostRuntime) -> Result<(), Fail> {
    let shelf = PlainShelf::new(PLACES)?;
    let target = Target {
        shelf: &shelf,
        controller: ControllerNumber(7),
    };
    assert!(rt; is_own(&shelf, 2, 0) && !is_own(&shelf, 0, 0));
    assert!(rt; !target.fits(1));
    let older = Target {
        controller: ControllerNumber(6),
        ..target
    };
    assert_eq!(rt; older.offered(0, 0, 2), None);
    let found = target.candidates(0, 0);
    assert!(rt; found.contains(2) && !found.contains(0));
    Ok(())
}

#[test]
fn what_is_decided(rt: HostRuntime) {
    let mut wiring = PartialWiring::new();
    assert_eq!(rt; wiring.decide(0, Choice::From(2)), Ok(()));
    assert_eq!(rt;
        wiring.decide(64, Choice::Unwired),
        Err(DecideRefusal::NoSuchPlace)
    );
    assert_eq!(rt; wiring.get(0, 0), Some(Choice::From(2)));
    assert_eq!(rt; wiring.get(0, 1), None);
    assert_eq!(rt; wiring.retract(0), Some(Choice::From(2)));
    assert_eq!(rt; wiring.count(0), 0);
}

#[test]
fn what_is_chosen(rt: HostRuntime) {
    let mut table = ChoiceTable::new();
    table.set(63, 15, Choice::From(2));
    assert_eq!(rt; table.get(63, 15), Choice::From(2));
    assert_eq!(rt; table.get(64, 0), Choice::Unwired);
    table.clear(63);
    assert_eq!(rt; table.get(63, 15), Choice::Unwired);
}
