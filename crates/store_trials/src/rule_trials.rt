//! Each rule on bodies and colliders, broken alone.
use crate::hall::{at, body, first, holds, is_admitted, part, wall};
use geometry::{ColliderHandle, Handle, Pose, RigidBodyHandle, RigidBodyType, Rotation, Vector};
use records::{Collider, ColliderList, ColliderParent, RigidBody};

fn nan() -> Vector {
    Vector {
        x: 0.0,
        y: f32::NAN,
        z: 0.0,
    }
}

fn with_list(handles: [ColliderHandle; 8], count: u32) -> RigidBody {
    RigidBody {
        colliders: ColliderList { handles, count },
        ..body()
    }
}

fn with_parent(body: Handle, relative: Pose, own: Pose) -> Collider {
    Collider {
        parent: Some(ColliderParent {
            body: RigidBodyHandle(body),
            relative,
        }),
        position: own,
        ..part()
    }
}

#[test]
fn a_good_hall_holds(rt: HostRuntime) {
    assert!(rt; holds(body(), part(), wall()));
    assert!(rt; is_admitted(body(), part(), wall()));
}

#[test]
fn a_number_that_is_none_is_told_in_each_part(rt: HostRuntime) {
    assert!(rt;
        !holds(
            RigidBody {
                next: Pose::at(nan()),
                ..body()
            },
            part(),
            wall(),
        )
    );
    assert!(rt;
        !holds(
            RigidBody {
                centre: nan(),
                ..body()
            },
            part(),
            wall(),
        )
    );
    assert!(rt;
        !holds(
            RigidBody {
                linvel: nan(),
                ..body()
            },
            part(),
            wall(),
        )
    );
    assert!(rt;
        !holds(
            RigidBody {
                angvel: nan(),
                ..body()
            },
            part(),
            wall(),
        )
    );
    assert!(rt;
        !holds(
            RigidBody {
                position: Pose::at(nan()),
                ..body()
            },
            part(),
            wall(),
        )
    );
    assert!(rt;
        !holds(
            body(),
            Collider {
                position: Pose::at(nan()),
                ..part()
            },
            wall(),
        )
    );
    assert!(rt;
        !holds(
            body(),
            with_parent(first(), Pose::at(nan()), at(3.0)),
            wall(),
        )
    );
    assert!(rt;
        !holds(
            RigidBody {
                linvel: Vector::splat(1_000_001.0),
                ..body()
            },
            part(),
            wall(),
        )
    );
}

#[test]
fn only_dynamic_bodies_are_marked(rt: HostRuntime) {
    let kind = RigidBodyType::KinematicPositionBased;
    assert!(rt; !holds(RigidBody { kind, ..body() }, part(), wall()));
    assert!(rt;
        holds(
            RigidBody {
                kind,
                marked: false,
                ..body()
            },
            part(),
            wall(),
        )
    );
}

#[test]
fn a_list_has_eight_at_most_and_none_twice(rt: HostRuntime) {
    let first = ColliderHandle(first());
    assert!(rt; !holds(with_list([first; 8], 9), part(), wall()));
    assert!(rt; !holds(with_list([first; 8], 2), part(), wall()));
    assert!(rt; holds(with_list([first; 8], 1), part(), wall()));
    assert!(rt; !holds(with_list([first; 8], 0), part(), wall()));
}

#[test]
fn bodies_and_colliders_name_each_other(rt: HostRuntime) {
    let stale = Handle {
        slot: 0,
        generation: 1,
    };
    let second = ColliderHandle(Handle {
        slot: 1,
        generation: 0,
    });
    // a parent that is not live
    assert!(rt; !holds(body(), with_parent(stale, at(1.0), at(3.0)), wall()));
    // a list that names the wall, which has no parent
    assert!(rt; !holds(with_list([second; 8], 1), part(), wall()));
    // a list that names a collider of another generation
    assert!(rt; !holds(with_list([ColliderHandle(stale); 8], 1), part(), wall()));
}

#[test]
fn own_poses_are_products_to_the_bit(rt: HostRuntime) {
    assert!(rt; !holds(body(), with_parent(first(), at(1.0), at(3.0000002)), wall()));
    // minus zero is not zero
    assert!(rt; !holds(body(), with_parent(first(), at(-2.0), at(-0.0)), wall()));
    assert!(rt; holds(body(), with_parent(first(), at(-2.0), at(0.0)), wall()));
}

#[test]
fn stored_shapes_are_known(rt: HostRuntime) {
    assert!(rt; !holds(body(), Collider { shape: 1, ..part() }, wall()));
    assert!(rt; !holds(body(), part(), Collider { shape: 1, ..wall() }));
}

#[test]
fn stored_poses_are_admitted(rt: HostRuntime) {
    let turned = Pose {
        rotation: Rotation {
            i: 1.0,
            j: 0.0,
            k: 0.0,
            w: 0.0,
        },
        ..at(2.0)
    };
    assert!(rt;
        !is_admitted(
            RigidBody {
                next: turned,
                ..body()
            },
            part(),
            wall(),
        )
    );
    assert!(rt;
        !is_admitted(
            body(),
            part(),
            Collider {
                position: turned,
                ..wall()
            },
        )
    );
    assert!(rt;
        !is_admitted(
            body(),
            part(),
            Collider {
                position: at(4_000_001.0),
                ..wall()
            },
        )
    );
    assert!(rt;
        !is_admitted(
            body(),
            with_parent(first(), at(4_000_000.0), at(3.0)),
            wall(),
        )
    );
}
