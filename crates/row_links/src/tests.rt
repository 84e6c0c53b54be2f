//! The worked example of the calls: with ample memory each answers.
use crate::Rows;
use racer_base::Memory;
use std::alloc::Global;

/// Whether five nodes in three lists stand where they were moved, in order.
fn stand_in_order(alloc: Global) -> Result<bool, Memory> {
    let mut rows = Rows::new(alloc, 5, 3)?;
    rows.move_to(1, 1);
    rows.move_to(3, 1);
    rows.move_to(0, 2);
    rows.splice(1, 2);
    rows.move_to(4, 1);
    let lists = [
        rows.list_of(0),
        rows.list_of(1),
        rows.list_of(2),
        rows.list_of(3),
        rows.list_of(4),
    ];
    let first = rows.take_front(2, 1);
    let second = [
        rows.take_front(1, 0),
        rows.take_front(1, 0),
        rows.take_front(1, 0),
    ];
    let third = [
        rows.take_front(2, 0),
        rows.take_front(2, 0),
        rows.take_front(2, 0),
    ];
    Ok(
        lists == [2, 2, 0, 2, 1]
            && first == Some(0)
            && second == [Some(4), Some(0), None]
            && third == [Some(1), Some(3), None],
    )
}

#[test]
fn nodes_stand_where_they_were_moved(rt: HostRuntime) {
    assert!(rt; stand_in_order(rt.alloc()) == Ok(true));
}
