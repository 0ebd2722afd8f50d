// What can be done with a stack.
ghost use Rattle.std.specs.Prelude.{◌≡◌, [], length, Decides};
ghost use Rattle.stack.specs.Held.{held, cells_of, room, top_of};
ghost use Rattle.stack.specs.Calls.{Pushed, Popped};

use super::Stack;
use crate::refusal::PushRefusal;

impl<'a, T: Copy> Stack<'a, T> {
    // An empty stack over the cells.
    pub fn new(cells: &'a mut [T]) -> Stack<'a, T>
        ensures held { held result ≡ [] }
        ensures cells { cells_of result ≡ cells.old }
    {
        Stack { cells, len: 0 }
    }

    // The contents, the oldest record first.
    pub fn as_slice(&self) -> &[T]
        ensures { result.now ≡ held self.now }
    {
        &self.cells[..self.len]
    }

    pub fn len(&self) -> usize
        ensures { result ≡ length (held self.now) }
    {
        self.as_slice().len()
    }

    pub fn is_empty(&self) -> bool
        ensures { Decides result (held self.now ≡ []) }
    {
        self.as_slice().is_empty()
    }

    // One record more on top. A full stack refuses it, and nothing is changed.
    pub fn push(&mut self, record: T) -> Result<(), PushRefusal>
        ensures pushed { Pushed self.old «record» self.new result }
        ensures room { room self.new ≡ room self.old }
    {
        // Not by `get_mut`: tried, and what the cells are after it is not known.
        let at = self.len;
        if at >= self.cells.len() {
            return Err(PushRefusal::Full);
        }
        self.cells[at] = record;
        self.len = at + 1;
        Ok(())
    }

    // Takes the top record off.
    pub fn pop(&mut self) -> Option<T>
        ensures popped { Popped self.old self.new result }
        ensures cells { cells_of self.new ≡ cells_of self.old }
    {
        let at = self.len.checked_sub(1)?;
        self.len = at;
        Some(self.cells[at])
    }

    pub fn top(&self) -> Option<T>
        ensures { result ≡ top_of (held self.now) }
    {
        self.as_slice().last().copied()
    }

    // Takes every record off.
    pub fn clear(&mut self)
        ensures held { held self.new ≡ [] }
        ensures cells { cells_of self.new ≡ cells_of self.old }
    {
        self.len = 0;
    }

    // Hands the cells on.
    pub fn into_cells(self) -> &'a mut [T]
        ensures { result.now ≡ cells_of self.entry }
    {
        let Stack { cells, len: _ } = self;
        cells
    }
}
