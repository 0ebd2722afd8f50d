// A shelf, a line for each place.
use kinds::range::Range;
use shelf::limits::{EXPORTS, NEEDS};
use shelf::shelf::Shelf;
use std::io;
use std::io::Write;

pub(crate) fn print_shelf<S: Shelf>(rt: &HostRuntime, shelf: &S) -> io::Result<()> {
    let count = shelf.count();
    println!(rt; "{count} bundles")?;
    for place in 0..count {
        print_place(rt, shelf, place)?;
    }
    Ok(())
}

fn print_place<S: Shelf>(rt: &HostRuntime, shelf: &S, place: usize) -> io::Result<()> {
    let (Some(name), Some(version)) = (shelf.name(place), shelf.version(place)) else {
        return println!(rt; "{place} absent");
    };
    let exports = how_many(EXPORTS, |j| shelf.export(place, j).is_some());
    let needs = how_many(NEEDS, |k| shelf.need(place, k).is_some());
    print!(rt; "{place} ")?;
    rt.stdout().write_all(name)?;
    print!(rt; " {version} exports {exports} needs {needs}")?;
    match shelf.controllers(place) {
        Some(range) if range != Range::all() => println!(rt; " on {range}"),
        _ => println!(rt; ""),
    }
}

// How many items stand in a row from the first.
fn how_many<F: Fn(usize) -> bool>(most: usize, is_there: F) -> usize
    requires { F.IsAlwaysCallable is_there }
{
    (0..most).take_while(|&i| is_there(i)).count()
}
