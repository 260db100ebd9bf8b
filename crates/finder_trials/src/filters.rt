//! Which pairs are kept.
use crate::samples::collider;
use finders::{BarredPair, BarredPairs, Filter, KeepAll};

fn pair(first: u32, second: u32) -> BarredPair {
    BarredPair {
        first: collider(first, 0),
        second: collider(second, 0),
    }
}

#[test]
fn sixty_four_pairs_count(rt: HostRuntime) {
    let mut pairs = [pair(900, 901); 65];
    pairs[63] = pair(1, 2);
    pairs[64] = pair(3, 4);
    let filter = BarredPairs { pairs: &pairs };
    assert!(rt; !filter.keep(collider(1, 0), collider(2, 0)));
    assert!(rt; !filter.keep(collider(2, 0), collider(1, 0)));
    assert!(rt; filter.keep(collider(1, 1), collider(2, 0)));
    assert!(rt; filter.keep(collider(2, 0), collider(1, 5)));
    assert!(rt; filter.keep(collider(3, 0), collider(4, 0)));
    assert!(rt; filter.keep(collider(4, 0), collider(3, 0)));
    let exact = BarredPairs {
        pairs: &pairs[0..64],
    };
    assert!(rt; !exact.keep(collider(2, 0), collider(1, 0)));
    let none = BarredPairs {
        pairs: &pairs[0..0],
    };
    assert!(rt; none.keep(collider(1, 0), collider(2, 0)));
}

#[test]
fn all_pairs_are_kept(rt: HostRuntime) {
    assert!(rt; KeepAll.keep(collider(1, 0), collider(2, 0)));
    assert!(rt; KeepAll.keep(collider(1, 0), collider(1, 0)));
}
