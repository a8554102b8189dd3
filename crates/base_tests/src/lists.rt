// Lists, texts, names of roots, and linked lists.

use ix_links::Links;
use plain_data::{Items, Text, is_root_name};
use std::test::Fail;

#[test]
fn items_are_a_list(rt: HostRuntime) -> Result<(), Fail> {
    let alloc = rt.alloc();
    let mut items = Items::new(alloc);
    assert!(rt; items.is_empty());
    for item in [5u32, 6, 7] {
        items.push(item)?;
    }
    assert_eq!(rt; items.len(), 3);
    if let Some(last) = items.last_mut() {
        *last = 8;
    }
    assert_eq!(rt; items.last(), Some(&8));
    assert_eq!(rt; items.pop(), Some(8));
    assert_eq!(rt; items.as_slice(), [5, 6].as_slice());
    let back = Items::from_vec(items.into_vec());
    assert_eq!(rt; back.as_slice(), [5, 6].as_slice());
    Ok(())
}

#[test]
fn texts_come_and_go(rt: HostRuntime) -> Result<(), Fail> {
    let text = Text::from_str(rt.alloc(), "vol")?;
    assert_eq!(rt; text.as_str(), "vol");
    let text = Text::from_string(text.into_string());
    assert_eq!(rt; text.as_str(), "vol");
    Ok(())
}

#[test]
fn root_names_are_told_from_others(rt: HostRuntime) {
    let longest = [b'a'; 200];
    let longer = [b'a'; 201];
    let names = ["vol", "a", "A.z/0_9/-x", "..."];
    for name in names {
        assert!(rt; is_root_name(name.as_bytes()), "{name}");
    }
    assert!(rt; is_root_name(&longest));
    let others = ["", "/", "/a", "a/", "a//b", ".", "a/..", "a b", "caf\u{e9}"];
    for other in others {
        assert!(rt; !is_root_name(other.as_bytes()), "{other}");
    }
    assert!(rt; !is_root_name(&longer));
}

#[test]
fn a_removed_node_goes_to_another_list(rt: HostRuntime) -> Result<(), Fail> {
    let mut links = Links::new(rt.alloc(), 4, 2)?;
    links.push_back(0, 0);
    links.push_back(0, 1);
    links.push_back(0, 2);
    links.remove(1);
    assert_eq!(rt; links.next(0), Some(2));
    links.push_front(1, 1);
    assert_eq!(rt; links.list_of(1), Some(1));
    assert_eq!(rt; links.list_of(3), None);
    Ok(())
}

#[test]
fn the_front_is_popped_first(rt: HostRuntime) -> Result<(), Fail> {
    let mut links = Links::new(rt.alloc(), 2, 1)?;
    links.push_front(0, 1);
    links.push_front(0, 0);
    assert_eq!(rt; links.front(0), Some(0));
    assert_eq!(rt; links.pop_front(0), Some(0));
    assert_eq!(rt; links.front(0), Some(1));
    assert_eq!(rt; links.next(1), None);
    Ok(())
}
