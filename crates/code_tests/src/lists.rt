//! The last id, and a list that grows long and shrinks again.

use std::test::Fail;
use value_lists::{ListRefusal, Lists, Put, TakeOut};

#[test]
fn last_id_is_given_out_once(rt: HostRuntime) -> Result<(), Fail> {
    let alloc = rt.alloc();
    let last = -4_611_686_018_427_387_904;
    let mut lists = Lists::starting(alloc, last);
    assert_eq!(rt; lists.make_two(alloc, 1, 2), Ok(last));
    assert_eq!(rt; lists.make_two(alloc, 1, 2), Err(ListRefusal::ListsFull));
    assert_eq!(rt; lists.count(), 1);
    assert_eq!(rt; lists.take_out(last, 1), TakeOut::One(2));
    assert_eq!(rt; lists.count(), 0);
    assert_eq!(rt; lists.make_two(alloc, 1, 2), Err(ListRefusal::ListsFull));
    Ok(())
}
