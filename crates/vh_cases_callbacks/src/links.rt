use std::test::Fail;
use vh_links::Links;

// Nodes are appended, taken out of the front, the middle and the end, and appended again. What is
// expected is what a plain list for each anchor has.
#[test]
fn nodes_come_and_go(rt: HostRuntime) -> Result<(), Fail> {
    let mut links = Links::new(rt.alloc(), 2)?;
    links.add_node(rt.alloc())?;
    links.add_node(rt.alloc())?;
    links.add_node(rt.alloc())?;
    links.push_back(0, 2);
    links.push_back(0, 0);
    links.push_back(0, 1);
    // [2, 0, 1] and []
    assert!(rt; links.first(0) == Some(2));
    assert!(rt; links.next(2) == Some(0));
    assert!(rt; links.next(0) == Some(1));
    assert!(rt; links.next(1) == None);
    assert!(rt; links.first(1) == None);
    links.unlink(0);
    // [2, 1] and []
    assert!(rt; links.next(2) == Some(1));
    links.unlink(2);
    links.push_back(1, 2);
    // [1] and [2]
    assert!(rt; links.first(0) == Some(1));
    assert!(rt; links.next(1) == None);
    assert!(rt; links.first(1) == Some(2));
    links.unlink(1);
    // [] and [2]
    assert!(rt; links.first(0) == None);
    Ok(())
}

// Lists are appended to others, also to and from empty ones, and to themselves.
#[test]
fn lists_are_moved(rt: HostRuntime) -> Result<(), Fail> {
    let mut links = Links::new(rt.alloc(), 2)?;
    links.add_node(rt.alloc())?;
    links.add_node(rt.alloc())?;
    links.push_back(0, 1);
    links.move_all(0, 0);
    // [1] and []
    assert!(rt; links.first(0) == Some(1));
    links.move_all(0, 1);
    links.push_back(0, 0);
    // [0] and [1]
    assert!(rt; links.first(0) == Some(0));
    assert!(rt; links.first(1) == Some(1));
    links.move_all(0, 1);
    // [] and [1, 0]
    assert!(rt; links.first(0) == None);
    assert!(rt; links.next(1) == Some(0));
    assert!(rt; links.next(0) == None);
    Ok(())
}
