//! A small hall: a body with one collider, and a wall without a body.
use geometry::{
    ColliderHandle, Handle, InteractionGroups, Pose, RigidBodyHandle, RigidBodyType, Vector,
};
use records::{Collider, ColliderList, ColliderParent, RigidBody};
use rules::Bench;
use slide::{Shape, Slide};
use slots::{Header, Slot};

pub(crate) fn at(x: f32) -> Pose {
    Pose::at(Vector { x, y: 0.0, z: 0.0 })
}

/// The first handle of a store.
pub(crate) fn first() -> Handle {
    Handle {
        slot: 0,
        generation: 0,
    }
}

/// A body at 2 that lists the first collider.
pub(crate) fn body() -> RigidBody {
    let mut colliders = ColliderList::empty();
    let _ = colliders.attach(ColliderHandle(first()));
    RigidBody {
        kind: RigidBodyType::Dynamic,
        position: at(2.0),
        next: at(2.0),
        centre: Vector::zero(),
        linvel: Vector::zero(),
        angvel: Vector::zero(),
        bullet: false,
        marked: true,
        colliders,
    }
}

/// Its collider, one further along.
pub(crate) fn part() -> Collider {
    Collider {
        parent: Some(ColliderParent {
            body: RigidBodyHandle(first()),
            relative: at(1.0),
        }),
        position: at(3.0),
        shape: 0,
        sensor: false,
        enabled: true,
        collision: InteractionGroups::all(),
        solver: InteractionGroups::all(),
        hooks: 0,
        events: 0,
    }
}

/// A wall.
pub(crate) fn wall() -> Collider {
    Collider {
        parent: None,
        position: at(8.0),
        ..part()
    }
}

fn live<T>(value: T) -> Slot<T> {
    Slot::Live {
        generation: 0,
        value,
    }
}

/// Whether the rules hold of a hall of these three records.
pub(crate) fn holds(body: RigidBody, part: Collider, wall: Collider) -> bool {
    let shapes = [Shape::Cuboid(Vector::splat(0.5))];
    let host = Slide {
        shapes: &shapes,
        children: &[],
    };
    let bodies = [live(body), Slot::Unused];
    let colliders = [live(part), live(wall), Slot::Unused];
    let one = Header {
        free: None,
        used: 1,
    };
    let two = Header {
        free: None,
        used: 2,
    };
    let bench = Bench {
        host: &host,
        bodies: &bodies,
        colliders: &colliders,
    };
    bench.stores_hold(&one, &two)
}

/// Whether the host admits all poses of a hall of these three records.
pub(crate) fn is_admitted(body: RigidBody, part: Collider, wall: Collider) -> bool {
    let shapes = [Shape::Cuboid(Vector::splat(0.5))];
    let host = Slide {
        shapes: &shapes,
        children: &[],
    };
    let bench = Bench {
        host: &host,
        bodies: &[live(body)],
        colliders: &[live(part), live(wall)],
    };
    bench.admits_all()
}
