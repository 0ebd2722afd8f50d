// The same clients at a shelf of plain values, at layers over it and at what is lent of it.
ghost use Rattle.shelf.specs.Hidden.{hidden_by};
ghost use Rattle.shelf.specs.Looked.{Found};
ghost use Rattle.shelf.specs.Plain.{meant};

use crate::hide::Hide;
use crate::lookup::At;
use crate::need::{Need, NeedKind, Resolution};
use crate::plain::PlainShelf;
use crate::refusal::{FillRefusal, HideRefusal, PlainRefusal};
use crate::samples::ONE;
use crate::shelf::Shelf;
use crate::values::{PlainBundle, PlainExport};
use kinds::controller::ControllerNumber;
use kinds::range::Range;
use kinds::version::Version;
use std::test::Fail;

const FROM_ONE: Range<Version> = Range::AtLeast(ONE);

const EVERY: Range<ControllerNumber> = Range::AtLeast(ControllerNumber(0));

const LOG: PlainExport<'static> = PlainExport {
    name: b"log",
    version: ONE,
    uses: &[],
};

const NET: PlainExport<'static> = PlainExport {
    name: b"net",
    version: ONE,
    uses: &[b"log"],
};

const NEEDS_NET: Need<'static> = Need {
    kind: NeedKind::Import,
    name: b"net",
    range: FROM_ONE,
    resolution: Resolution::Mandatory,
};

const NEEDS_TIME: Need<'static> = Need {
    name: b"time",
    ..NEEDS_NET
};

const BASE: PlainBundle<'static> = PlainBundle {
    name: b"base",
    version: ONE,
    controllers: EVERY,
    exports: &[LOG, NET],
    needs: &[NEEDS_NET, NEEDS_TIME],
};

const BASE_SECOND: &[Option<PlainBundle<'static>>] = &[None, Some(BASE)];

// As many names as a bundle may have imports, and one more.
const NAMES: [&[u8]; 17] = [
    b"net", b"time", b"c", b"d", b"e", b"f", b"g", b"h", b"i", b"j", b"k", b"l", b"m", b"n", b"o",
    b"p", b"q",
];

const TWICE: PlainBundle<'static> = PlainBundle {
    exports: &[LOG, NET, LOG],
    ..BASE
};

const TWICE_ALONE: &[Option<PlainBundle<'static>>] = &[Some(TWICE)];

// The client at three shelves: its contract follows at each with no proof of its own.
fn at_plain(shelf: &PlainShelf<'_>, place: usize, name: &[u8]) -> Option<usize>
    ensures { Found (meant shelf.now.places.now) place name.now result }
{
    At { shelf, place }.export_named(name)
}

fn under_one<S: Shelf>(shelf: &Hide<S>, place: usize, name: &[u8]) -> Option<usize>
    ensures { Found (hidden_by shelf.now.hidden (S.Shelf.meaning shelf.now.below)) place name.now result }
{
    At { shelf, place }.export_named(name)
}

fn under_two<S: Shelf>(shelf: &Hide<Hide<S>>, place: usize, name: &[u8]) -> Option<usize>
    ensures { Found (hidden_by shelf.now.hidden (hidden_by shelf.now.below.hidden (S.Shelf.meaning shelf.now.below.below))) place name.now result }
{
    At { shelf, place }.export_named(name)
}

fn at<S: Shelf>(shelf: &S, place: usize) -> At<'_, S> {
    At { shelf, place }
}

#[test]
fn clients_at_every_shelf(rt: HostRuntime) -> Result<(), Fail> {
    let plain = PlainShelf::new(BASE_SECOND)?;
    assert_eq!(rt; at_plain(&plain, 1, b"net"), Some(1));
    assert_eq!(rt; at(&&plain, 0).export_named(b"net"), None);
    assert!(rt; at(&Hide::new(&plain), 1).is_named(b"base"));
    assert!(rt; at(&plain, 1).is_own_import(0));
    assert!(rt; !at(&plain, 1).is_own_import(1));
    assert!(rt; plain.need(1, 1).is_some() && plain.need(1, 2).is_none());
    assert!(rt; plain.used(1, 1, 0).is_some() && plain.used(1, usize::MAX, 0).is_none());
    assert!(rt; plain.name(usize::MAX).is_none());
    assert!(rt; plain.count() == 2 && !plain.present(0) && plain.present(1));
    let mut lower = Hide::new(plain);
    lower.hide(0)?;
    assert_eq!(rt; under_one(&lower, 1, b"net"), Some(1));
    let mut upper = Hide::new(lower);
    assert_eq!(rt; under_two(&upper, 1, b"net"), Some(1));
    upper.hide(1)?;
    assert_eq!(rt; under_two(&upper, 1, b"net"), None);
    assert!(rt; upper.count() == 2 && !upper.present(1) && upper.version(1).is_none());
    upper.show(1)?;
    assert_eq!(rt; under_two(&upper, 1, b"net"), Some(1));
    Ok(())
}

#[test]
fn what_is_refused(rt: HostRuntime) -> Result<(), Fail> {
    assert_eq!(rt;
        PlainShelf::new(TWICE_ALONE).err(),
        Some(PlainRefusal::LimitBroken)
    );
    let needs = NAMES.map(|name| Need { name, ..NEEDS_NET });
    let crowded = [Some(PlainBundle {
        needs: &needs,
        ..BASE
    })];
    assert_eq!(rt;
        PlainShelf::new(&crowded).err(),
        Some(PlainRefusal::LimitBroken)
    );
    let mut upper = Hide::new(PlainShelf::empty());
    assert_eq!(rt; upper.count(), 0);
    upper.hide(63)?;
    assert!(rt; upper.is_hidden(63));
    assert_eq!(rt; upper.hide(64), Err(HideRefusal::NoSuchPlace));
    assert_eq!(rt; HideRefusal::NoSuchPlace.number(), 29);
    Ok(())
}

#[test]
fn what_is_filled(rt: HostRuntime) -> Result<(), Fail> {
    let needs = NAMES.map(|name| Need { name, ..NEEDS_NET });
    let crowded = [Some(PlainBundle {
        needs: &needs,
        ..BASE
    })];
    let mut plain = PlainShelf::empty();
    assert_eq!(rt; plain.fill(TWICE_ALONE), Err(FillRefusal::LimitBroken));
    assert_eq!(rt; plain.fill(&crowded), Err(FillRefusal::LimitBroken));
    assert_eq!(rt; plain.count(), 0);
    plain.fill(BASE_SECOND)?;
    assert_eq!(rt; plain.fill(TWICE_ALONE), Err(FillRefusal::LimitBroken));
    assert_eq!(rt; plain.count(), 2);
    Ok(())
}
