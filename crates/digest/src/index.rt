// Finding the number of a package by its name.
ghost use Rattle.std.specs.Prelude.{◌≡◌, ◌+◌, ◌/◌, ◌%◌, ◌<◌, ◌≤◌, Some, None, Decides, MatchOption};
ghost use Rattle.std.specs.Option.{IsSomeAnd, option_map};
ghost use Rattle.std.proofs.Props.{props};
ghost use Rattle.shelf.specs.Meaning.{Name};
ghost use Rattle.digest.specs.Index.{Finds, Indexed, KeepsNumbers};
ghost use Rattle.digest.specs.Packages.{ExportOf, NumberOf, Numbering, package_at};

use crate::bucket::bucket;
use crate::limits::{ALL_EXPORTS, BUCKETS};
use shelf::limits::EXPORTS;
use shelf::shelf::Shelf;
use text::bytes::same_text;

// The packages of the exports before `count`: for each bucket the newest number in it, for each number the next older one of its bucket,
// and for each export its package's number. The library's maps would need the heap.
#[derive(Drop)]
pub struct Index<'s, S: Shelf> {
    shelf: &'s S,
    count: usize,
    newest: [Option<u16>; BUCKETS],
    older: [Option<u16>; ALL_EXPORTS],
    numbers: [Option<u16>; ALL_EXPORTS],
    ghost few: { count ≤ 1024 },
    ghost indexed: { Indexed (S.Shelf.meaning shelf.now) count newest older } by { Prim.hlevel props },
    ghost numbered: { KeepsNumbers (S.Shelf.meaning shelf.now) count numbers } by { Prim.hlevel props },
}

// The package of export n, counted through: a number is a place and a position there.
fn package<S: Shelf>(shelf: &S, n: usize) -> Option<&[u8]>
    ensures { option_map (λ x. x.now) result ≡ package_at (S.Shelf.meaning shelf.now) (n / 16) (n % 16) }
{
    Some(shelf.export(n / EXPORTS, n % EXPORTS)?.name)
}

// Whether export n is of that package.
fn is_of<S: Shelf>(shelf: &S, n: usize, name: &[u8]) -> bool
    ensures { Decides result (ExportOf (S.Shelf.meaning shelf.now) n name.now) }
{
    package(shelf, n).is_some_and(|other| same_text(other, name))
}

impl<'s, S: Shelf> Index<'s, S> {
    // No package is in it at first.
    fn new(shelf: &'s S) -> Index<'s, S>
        ensures { (result.shelf.now ≡ shelf.now) × (result.count ≡ 0) }
    {
        Index {
            shelf,
            count: 0,
            newest: [None; BUCKETS],
            older: [None; ALL_EXPORTS],
            numbers: [None; ALL_EXPORTS],
        }
    }

    // The number of the package among those before `count`. The walk goes from the newest number of its bucket to ever older ones.
    fn find(&self, name: &[u8]) -> Option<u16>
        ensures { Finds (S.Shelf.meaning self.now.shelf.now) self.now.count name.now result }
    {
        let mut at = self.newest[bucket(name)];
        while let Some(n) = at {
            if is_of(self.shelf, usize::from(n), name) {
                return Some(n);
            }
            at = self.older[usize::from(n)];
        }
        None
    }

    // The package of the next export and its number, which is the export's own where none before it is of that package.
    fn next(&self) -> Option<(&'s [u8], u16)>
        ensures { MatchOption result (package_at (S.Shelf.meaning self.now.shelf.now) (self.now.count / 16) (self.now.count % 16) ≡ None) (λ r. ExportOf (S.Shelf.meaning self.now.shelf.now) self.now.count r.0.now × NumberOf (S.Shelf.meaning self.now.shelf.now) r.0.now r.1) }
    {
        let name = package(self.shelf, self.count)?;
        Some((name, self.find(name).unwrap_or(self.count as u16)))
    }

    // Takes in the next export: the first of its package goes into its bucket.
    fn insert(&mut self)
        requires { self.old.count < 1024 }
        ensures { (self.new.shelf.now ≡ self.old.shelf.now) × (self.new.count ≡ self.old.count + 1) }
    {
        if let Some((name, number)) = self.next() {
            if usize::from(number) == self.count {
                let c = bucket(name);
                self.older[self.count] = self.newest[c];
                self.newest[c] = Some(number);
            }
            self.numbers[self.count] = Some(number);
        }
        self.count += 1;
    }

    // All exports of the shelf.
    fn of(shelf: &'s S) -> Index<'s, S>
        ensures { (result.shelf.now ≡ shelf.now) × (result.count ≡ 1024) }
    {
        let mut index = Index::new(shelf);
        // The count is a field and not the loop's number, since the invariant can name no loop.
        for _ in 0..ALL_EXPORTS {
            index.insert();
        }
        index
    }
}

// The packages of all exports: an index that is whole, as a type, so that no contract has to ask for it.
#[derive(Drop)]
pub struct Names<'s, S: Shelf> {
    index: Index<'s, S>,
    ghost whole: { index.count ≡ 1024 },
}

impl<'s, S: Shelf> Names<'s, S> {
    pub(crate) fn of(shelf: &'s S) -> Names<'s, S>
        ensures { result.index.shelf.now ≡ shelf.now }
    {
        Names {
            index: Index::of(shelf),
        }
    }

    pub(crate) fn shelf(&self) -> &'s S
        ensures { result.now ≡ self.now.index.shelf.now }
    {
        self.index.shelf
    }

    // The number of a package, if anybody exports it.
    pub(crate) fn number(&self, name: &[u8]) -> Option<u16>
        ensures { Numbering (S.Shelf.meaning self.now.index.shelf.now) (Some name.now) result }
    {
        self.index.find(name)
    }

    // The number of export n's package, counted through, which was found when the export was taken in.
    pub(crate) fn export_number(&self, n: usize) -> Option<u16>
        ensures { (q : Name) → ExportOf (S.Shelf.meaning self.now.index.shelf.now) n q → IsSomeAnd result (NumberOf (S.Shelf.meaning self.now.index.shelf.now) q) }
    {
        *self.index.numbers.get(n)?
    }
}
