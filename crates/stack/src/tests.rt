// The stack at two kinds of record.
use crate::lent::Stack;
use crate::refusal::PushRefusal;
use std::test::Fail;

#[derive(Clone, Copy, PartialEq, Eq, Debug)]
struct Frame {
    place: u8,
    need: u8,
}

#[derive(Clone, Copy, PartialEq, Eq, Debug)]
enum Mark {
    Open,
    At(u16),
}

const FIRST: Frame = Frame { place: 1, need: 2 };

const SECOND: Frame = Frame { place: 7, need: 0 };

#[test]
fn frames(rt: HostRuntime) -> Result<(), Fail> {
    let mut cells = [FIRST; 2];
    let mut stack = Stack::new(&mut cells);
    assert!(rt; stack.is_empty());
    stack.push(FIRST)?;
    stack.push(SECOND)?;
    assert_eq!(rt; stack.push(FIRST), Err(PushRefusal::Full));
    assert_eq!(rt; stack.len(), 2);
    assert_eq!(rt; stack.pop(), Some(SECOND));
    stack.clear();
    assert_eq!(rt; stack.top(), None);
    assert_eq!(rt; stack.into_cells().len(), 2);
    Ok(())
}

#[test]
fn marks(rt: HostRuntime) -> Result<(), Fail> {
    let mut cells = [Mark::Open; 3];
    let mut stack = Stack::new(&mut cells);
    stack.push(Mark::At(5))?;
    assert_eq!(rt; stack.top(), Some(Mark::At(5)));
    Ok(())
}
