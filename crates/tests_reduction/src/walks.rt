//! Walks that pass lists over.

use crate::made::{large_record, list_of, record_of};
use crate::passes::gives;
use pt_cand::{PASSES, Pass, Walk};
use std::test::Fail;

#[test]
fn a_walk_passes_lists_over(rt: HostRuntime) -> Result<(), Fail> {
    let alloc = rt.alloc();
    let best = record_of(alloc, "i573", &[(32, 0, 1, None)]).ok_or("a record")?;
    for (count, want) in [
        (0, "i0,i286,i572"),
        (1, "i286,i572"),
        (3, ""),
        (10, ""),
        (u32::MAX, ""),
    ] {
        let mut walk = Walk::of(&best, Pass::LowerOne);
        walk.skip(count);
        assert_eq!(rt; gives(alloc, &mut walk, want), Some(true), "after {count}");
    }
    let mut walk = Walk::of(&best, Pass::LowerOne);
    walk.skip(1);
    let list = walk.next_list(alloc)?.ok_or("a list")?;
    assert_eq!(rt;
        list_of(alloc, "i286").is_some_and(|want| want == list),
        true
    );
    walk.skip(9);
    assert_eq!(rt; walk.next_list(alloc)?.is_none(), true);
    Ok(())
}

#[test]
fn the_largest_record_is_walked_to_its_end(rt: HostRuntime) -> Result<(), Fail> {
    let alloc = rt.alloc();
    let best = large_record(alloc).ok_or("a record")?;
    assert_eq!(rt; (best.choices.len(), best.spans.len()), (256, 1024));
    for pass in PASSES {
        let mut walk = Walk::of(&best, pass);
        walk.skip(u32::MAX);
        assert_eq!(rt; walk.next_list(alloc)?.is_none(), true, "{pass:?}");
    }
    Ok(())
}
