use dm_sets::{BoundedStack, NodeSet};
use std::test::Fail;

#[test]
fn a_full_stack_takes_no_entry(rt: HostRuntime) -> Result<(), Fail> {
    let mut stack = BoundedStack::new(rt.alloc(), 1)?;
    assert_eq!(rt; stack.top(), None);
    assert!(rt; stack.push(5));
    assert!(rt; !stack.push(6));
    assert_eq!(rt; stack.top(), Some(5));
    let mut copied = stack.copy()?;
    assert_eq!(rt; stack.pop(), Some(5));
    assert_eq!(rt; stack.pop(), None);
    assert_eq!(rt; copied.bound(), 1);
    assert_eq!(rt; copied.len(), 1);
    assert!(rt; !copied.push(7));
    assert_eq!(rt; copied.pop(), Some(5));
    assert!(rt; copied.push(7));
    Ok(())
}

#[test]
fn a_set_has_what_was_inserted(rt: HostRuntime) -> Result<(), Fail> {
    let mut set = NodeSet::new(rt.alloc(), 3)?;
    assert_eq!(rt; set.size(), 3);
    assert!(rt; set.insert(2));
    assert!(rt; !set.insert(2));
    assert_eq!(rt; set.next(0), Some(2));
    assert_eq!(rt; set.next(3), None);
    let copied = set.copy()?;
    set.clear();
    assert_eq!(rt; set.next(0), None);
    assert!(rt; copied.contains(2));
    Ok(())
}
