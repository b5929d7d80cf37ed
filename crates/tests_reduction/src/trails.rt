//! Trails.

use crate::made::list_of;
use pt_found::Trail;
use std::test::Fail;

#[test]
fn a_trail_has_each_list_once_and_in_order(rt: HostRuntime) -> Result<(), Fail> {
    let alloc = rt.alloc();
    let mut trail = Trail::empty(alloc);
    for (text, accepted) in [
        ("i0", false),
        ("i286", true),
        ("-", false),
        ("t1.2 x00", true),
    ] {
        let list = list_of(alloc, text).ok_or("a list")?;
        assert_eq!(rt; trail.has(&list), false, "{text}");
        trail.add(list, accepted)?;
    }
    assert_eq!(rt; trail.len(), 4);
    for (place, text, want) in [
        (0, "i0", false),
        (1, "i286", true),
        (2, "-", false),
        (3, "t1.2 x00", true),
    ] {
        let list = list_of(alloc, text).ok_or("a list")?;
        assert_eq!(rt; trail.has(&list), true, "{text}");
        let (tried, accepted) = trail.at(place).ok_or("an entry")?;
        assert_eq!(rt; tried.as_slice(), list.as_slice());
        assert_eq!(rt; accepted, want, "{text}");
    }
    assert_eq!(rt; trail.at(4).is_none(), true);
    assert_eq!(rt; trail.has(&list_of(alloc, "i1").ok_or("a list")?), false);
    Ok(())
}
