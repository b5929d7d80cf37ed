//! Types that are kept once.

use pt_choice::NoMemory;
use pt_types::Types;
use std::alloc::Global;
use std::test::Fail;

/// The number of the type of lists of lists, as deep as this, of integers.
fn nested(alloc: Global, depth: usize) -> Result<usize, NoMemory> {
    let mut types = Types::base(alloc)?;
    let mut number = 0;
    for level in 0..depth {
        let _ = level;
        number = types.list_of(number)?;
    }
    Ok(number)
}

#[test]
fn a_type_may_be_nested_deep(rt: HostRuntime) -> Result<(), Fail> {
    assert_eq!(rt; nested(rt.alloc(), 60_000)?, 60_005);
    Ok(())
}
