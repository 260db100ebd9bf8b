//! What is set, replaced, refused and removed.
use crate::samples::{collider, cube};
use finders::{Finder, FinderFault, FixedList, LeafTable};

#[test]
fn an_empty_table_reports_nothing(rt: HostRuntime) {
    let mut out = [collider(9, 9); 4];
    assert_eq!(rt;
        LeafTable::new(4).report(cube(0.0, 1.0), 3.0e38, &mut out),
        0
    );
    assert_eq!(rt;
        FixedList::new().report(cube(0.0, 1.0), 3.0e38, &mut out),
        0
    );
}

#[test]
fn a_generation_is_replaced(rt: HostRuntime) {
    let mut finder = LeafTable::new(4);
    let mut out = [collider(9, 9); 4];
    assert!(rt; finder.set(collider(3, 0), cube(0.0, 1.0)).is_ok());
    assert!(rt; finder.set(collider(3, 1), cube(0.0, 1.0)).is_ok());
    assert_eq!(rt; finder.report(cube(0.0, 1.0), 0.0, &mut out), 1);
    assert_eq!(rt; out[0], collider(3, 1));
    finder.remove(collider(3, 0));
    assert_eq!(rt; finder.report(cube(0.0, 1.0), 0.0, &mut out), 1);
    finder.remove(collider(3, 1));
    finder.remove(collider(3, 1));
    finder.remove(collider(4, 0));
    assert_eq!(rt; finder.report(cube(0.0, 1.0), 0.0, &mut out), 0);
}

#[test]
fn a_leaf_table_is_filled(rt: HostRuntime) {
    let mut finder = LeafTable::new(2);
    let mut out = [collider(9, 9); 4];
    assert_eq!(rt; finder.capacity(), 2);
    assert!(rt; finder.set(collider(0, 0), cube(0.0, 1.0)).is_ok());
    assert!(rt; finder.set(collider(1, 0), cube(0.0, 1.0)).is_ok());
    assert_eq!(rt;
        finder.set(collider(2, 0), cube(0.0, 1.0)),
        Err(FinderFault::PastTheLastSlot)
    );
    assert_eq!(rt;
        finder.set(collider(4_294_967_295, 0), cube(0.0, 1.0)),
        Err(FinderFault::PastTheLastSlot)
    );
    assert!(rt; finder.set(collider(1, 1), cube(0.0, 1.0)).is_ok());
    assert_eq!(rt; finder.report(cube(0.0, 1.0), 0.0, &mut out), 2);
    assert_eq!(rt;
        LeafTable::new(0).set(collider(0, 0), cube(0.0, 1.0)),
        Err(FinderFault::PastTheLastSlot)
    );
    assert_eq!(rt; LeafTable::new(5_000).capacity(), 1_024);
}

#[test]
fn a_fixed_list_is_filled(rt: HostRuntime) {
    let mut list = FixedList::new();
    assert_eq!(rt; list.capacity(), 512);
    assert_eq!(rt;
        list.set(collider(1_024, 0), cube(0.0, 1.0)),
        Err(FinderFault::PastTheLastSlot)
    );
    for slot in 0..512u32 {
        assert!(rt; list.set(collider(2 * slot + 1, 0), cube(0.0, 1.0)).is_ok());
    }
    assert_eq!(rt;
        list.set(collider(0, 0), cube(0.0, 1.0)),
        Err(FinderFault::Full)
    );
    assert!(rt; list.set(collider(1_023, 1), cube(0.0, 1.0)).is_ok());
    list.remove(collider(1_023, 0));
    assert_eq!(rt;
        list.set(collider(0, 0), cube(0.0, 1.0)),
        Err(FinderFault::Full)
    );
    list.remove(collider(1_023, 1));
    assert!(rt; list.set(collider(0, 0), cube(0.0, 1.0)).is_ok());
    let mut out = [collider(9, 9); 600];
    assert_eq!(rt; list.report(cube(0.0, 1.0), 0.0, &mut out), 512);
    assert!(rt; out[0] == collider(0, 0) && out[511] == collider(1_021, 0));
}
