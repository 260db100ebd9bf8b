//! The slot store over numbers.
use geometry::Handle;
use slots::{Header, Slot, get, insert, open, remove, replace, valid};

const LAST: u32 = 4_294_967_295;

fn handle(slot: u32, generation: u32) -> Handle {
    Handle { slot, generation }
}

#[test]
fn the_slot_freed_last_is_taken_first(rt: HostRuntime) {
    let mut slots = [Slot::Retired; 3];
    let mut header = open(&mut slots);
    assert_eq!(rt; insert(&mut header, &mut slots, 10u8), Ok(handle(0, 0)));
    assert_eq!(rt; insert(&mut header, &mut slots, 11u8), Ok(handle(1, 0)));
    assert_eq!(rt; insert(&mut header, &mut slots, 12u8), Ok(handle(2, 0)));
    assert_eq!(rt;
        insert(&mut header, &mut slots, 13u8),
        Err(slots::Fault::Full)
    );
    assert_eq!(rt; remove(&mut header, &mut slots, handle(0, 0)), Ok(10));
    assert_eq!(rt; remove(&mut header, &mut slots, handle(2, 0)), Ok(12));
    assert_eq!(rt; insert(&mut header, &mut slots, 14u8), Ok(handle(2, 1)));
    assert_eq!(rt; insert(&mut header, &mut slots, 15u8), Ok(handle(0, 1)));
    assert_eq!(rt; get(&slots, handle(0, 0)).copied(), None);
    assert_eq!(rt;
        replace(&mut slots, handle(0, 0), 16u8),
        Err(slots::Fault::NotLive)
    );
    assert!(rt; valid(&header, &slots));
}

#[test]
fn a_slot_is_retired_at_its_last_generation(rt: HostRuntime) {
    let mut slots = [
        Slot::Live {
            generation: LAST,
            value: 7u8,
        },
        Slot::Unused,
    ];
    let mut header = Header {
        free: None,
        used: 1,
    };
    assert!(rt; valid(&header, &slots));
    assert_eq!(rt; remove(&mut header, &mut slots, handle(0, LAST)), Ok(7));
    assert_eq!(rt; insert(&mut header, &mut slots, 8u8), Ok(handle(1, 0)));
    assert_eq!(rt;
        insert(&mut header, &mut slots, 9u8),
        Err(slots::Fault::Full)
    );
    assert!(rt; valid(&header, &slots));
}

#[test]
fn broken_links_are_told(rt: HostRuntime) {
    let free = Slot::<u8>::Free {
        generation: 1,
        next: Some(0),
    };
    let last = Slot::<u8>::Free {
        generation: 1,
        next: None,
    };
    let live = Slot::Live {
        generation: 0,
        value: 1u8,
    };
    let header = Header {
        free: Some(0),
        used: 2,
    };
    // a free slot that links to itself
    assert!(rt; !valid(&header, &[free, live]));
    // two that link to each other
    assert!(rt;
        !valid(
            &header,
            &[
                Slot::Free {
                    generation: 1,
                    next: Some(1),
                },
                free,
            ],
        )
    );
    // a link to a live slot
    assert!(rt;
        !valid(
            &header,
            &[
                Slot::Free {
                    generation: 1,
                    next: Some(1),
                },
                live,
            ],
        )
    );
    // a link past the end
    assert!(rt;
        !valid(
            &header,
            &[
                Slot::Free {
                    generation: 1,
                    next: Some(2),
                },
                live,
            ],
        )
    );
    // a free slot that no link leads to
    assert!(rt; !valid(&header, &[last, last]));
    // a free slot at generation 0
    assert!(rt;
        !valid(
            &header,
            &[
                Slot::Free {
                    generation: 0,
                    next: None,
                },
                live,
            ],
        )
    );
    // an unused slot below the first unused one
    assert!(rt; !valid(&header, &[last, Slot::Unused]));
    assert!(rt; valid(&header, &[last, live]));
}
