// What a directory of manifests says, place by place, or why it is refused.
#![tactic(auto)]

mod refused;
mod shelves;

use manifest::check::check;
use manifest::limits::LONGEST_TEXT;
use manifest::manifest_shelf::ManifestShelf;
use refused::print_refusal;
use shelves::print_shelf;
use std::io;
use std::io::Read;

// One byte more than the longest directory has, so that one that is too long is seen to be.
const ROOM: u64 = LONGEST_TEXT as u64 + 1;

fn main(rt: HostRuntime) -> io::Result<()> {
    let mut input = Vec::new(rt.alloc());
    rt.stdin().take(ROOM).read_to_end(&mut input)?;
    match check(input.as_slice()) {
        Ok(()) => print_shelf(&rt, &ManifestShelf::open(input.as_slice())),
        Err(refusal) => print_refusal(&rt, input.as_slice(), refusal),
    }
}
