// The stack itself, in a file of its own, since the definitions of its contents name it.
ghost use Rattle.std.specs.Prelude.{◌≤◌, length};

pub mod calls;

// The first cells hold the contents, the oldest record first. The caller lends them, as memory is lent or fixed in every library here:
// an array list would own its cells, and its size would be part of its type.
#[derive(Drop)]
pub struct Stack<'a, T> {
    cells: &'a mut [T],
    len: usize,
    ghost within: { len ≤ length cells.now },
}
