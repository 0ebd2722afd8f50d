// Sets of a few places.
ghost use Rattle.std.specs.Prelude.{◌≡◌, ℕ, ◌&&◌, nat_lt};
ghost use Rattle.places.specs.Sets.{has};

use crate::set::PlaceSet;
use std::array;

#[test]
fn in_and_out(rt: HostRuntime) {
    let mut set = PlaceSet::empty();
    set.insert(63);
    set.insert(5);
    set.insert(64);
    assert!(rt; set.contains(5) && !set.contains(64));
    assert_eq!(rt; set.lowest(), Some(5));
    set.remove(5);
    assert_eq!(rt; set.lowest(), Some(63));
    assert!(rt; set.difference(set).is_empty());
}

fn is_under(place: usize, ceiling: usize) -> bool
    ensures { result ≡ (nat_lt place ceiling && nat_lt place 64) }
{
    place < ceiling && place < 64
}

// A set by a test that captures: its contract follows from that of the test.
fn under(ceiling: usize) -> PlaceSet
    ensures { (p : ℕ) → has result p ≡ (nat_lt p ceiling && nat_lt p 64) }
{
    PlaceSet::those(&array::from_fn(|place| is_under(place, ceiling)))
}

#[test]
fn by_a_test(rt: HostRuntime) {
    let mut set = PlaceSet::empty();
    set.insert(0);
    set.insert(1);
    assert_eq!(rt; under(2), set);
    assert!(rt; PlaceSet::those(&array::from_fn(|place| place > 63)).is_empty());
    assert!(rt; PlaceSet::default() != set);
}
