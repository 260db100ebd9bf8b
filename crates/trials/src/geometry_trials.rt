//! Numbers, boxes and groups at their limits.
use geometry::{Aabb, Handle, InteractionGroups, InteractionTestMode, Pose, Rotation, Vector};
use numbers::{in_range, lerp, smallest};

const MILLION: f32 = 1_000_000.0;

fn at(x: f32) -> Vector {
    Vector { x, y: 0.0, z: 0.0 }
}

fn cube(x: f32) -> Aabb {
    Aabb::around(at(x), Vector::splat(0.5))
}

#[test]
fn range_ends_at_the_limit(rt: HostRuntime) {
    assert!(rt; in_range(MILLION, MILLION));
    assert!(rt; in_range(-MILLION, MILLION));
    assert!(rt; !in_range(1_000_000.06, MILLION));
    assert!(rt; !in_range(f32::INFINITY, MILLION));
    assert!(rt; !in_range(f32::NAN, MILLION));
}

#[test]
fn a_place_on_the_way_is_rounded_at_each_step(rt: HostRuntime) {
    assert!(rt; lerp(0.0, 8.0, 0.4375) == 3.5);
    assert!(rt; lerp(8.0, 0.0, 0.25) == 6.0);
    // at the fraction 1 the rounded stroke may pass the end
    assert!(rt; lerp(-0.87380487, 3.5446405, 1.0) == 3.5446408);
}

#[test]
fn the_least_number_is_found(rt: HostRuntime) {
    assert!(rt; smallest(&[0.4375, 0.1875, 0.5]) == Some(0.1875));
    assert!(rt; smallest(&[]) == None);
}

#[test]
fn boxes_that_touch_meet(rt: HostRuntime) {
    assert!(rt; cube(0.0).intersects(cube(1.0)));
    assert!(rt; !cube(0.0).intersects(cube(1.0000001)));
    assert!(rt; cube(0.0).loosened(0.25).intersects(cube(1.25)));
    assert!(rt; cube(0.0).merged(cube(4.0)).maxs.x == 4.5);
    assert!(rt; cube(0.0).moved(at(2.0)).mins.x == 1.5);
}

#[test]
fn a_turn_is_none_by_number(rt: HostRuntime) {
    let minus = Rotation {
        i: -0.0,
        j: 0.0,
        k: -0.0,
        w: 1.0,
    };
    assert!(rt; minus.is_identity());
    assert!(rt; !Rotation { w: -1.0, ..minus }.is_identity());
    assert!(rt; Pose::at(at(MILLION)).in_range(MILLION));
}

#[test]
fn groups_agree_only_with_both_modes_or(rt: HostRuntime) {
    let first = InteractionGroups {
        memberships: 1,
        filter: 2,
        mode: InteractionTestMode::Or,
    };
    let second = InteractionGroups {
        memberships: 2,
        filter: 4,
        mode: InteractionTestMode::Or,
    };
    let strict = InteractionGroups {
        mode: InteractionTestMode::And,
        ..second
    };
    assert!(rt; first.test(second));
    assert!(rt; !first.test(strict));
    assert!(rt; !strict.test(first));
    assert!(rt; InteractionGroups::all().test(InteractionGroups::all()));
    assert!(rt; !InteractionGroups::all().test(InteractionGroups::none()));
}

#[test]
fn handles_of_two_generations_differ(rt: HostRuntime) {
    let old = Handle {
        slot: 3,
        generation: 0,
    };
    let new = Handle {
        slot: 3,
        generation: 1,
    };
    assert!(rt; old == old);
    assert!(rt; old != new);
}
