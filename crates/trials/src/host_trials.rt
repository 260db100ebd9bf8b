//! Both hosts under caps, and what they say of unknown shapes.
use casts::{Casts, Flight, cast_flight};
use geometry::{Aabb, Pose, ShapeKind, Vector};
use hosts::{CastQuery, Child, Host, Sweep};
use outcomes::{CastOutcome, PairKind};
use recorded::{Listed, Recorded, Row};
use slide::{Shape, Slide};
use std::test::Fail;

fn at(x: f32) -> Pose {
    Pose::at(Vector { x, y: 0.0, z: 0.0 })
}

fn toward(x: f32) -> CastQuery {
    CastQuery {
        fast: 0,
        sweep: Sweep {
            start: at(0.0),
            end: at(8.0),
            centre: Vector::zero(),
        },
        target: 0,
        pose: at(x),
        slop: 0.0,
    }
}

#[test]
fn a_slide_cast_is_separated_at_a_lower_cap(rt: HostRuntime) {
    let shapes = [Shape::Cuboid(Vector::splat(0.5))];
    let host = Slide {
        shapes: &shapes,
        children: &[],
    };
    assert!(rt; host.proxy_cast(toward(4.5), 1.0) == CastOutcome::Hit(0.4375));
    assert!(rt; host.proxy_cast(toward(4.5), 0.4375) == CastOutcome::Hit(0.4375));
    assert!(rt; host.proxy_cast(toward(4.5), 0.25) == CastOutcome::Separated(0.25));
    assert!(rt;
        host.composite_cast(toward(4.5), PairKind::Solid, 1.0)
            .is_none()
    );
}

#[test]
fn a_compound_out_of_range_is_unknown(rt: HostRuntime) {
    let shapes = [
        Shape::Cuboid(Vector::splat(0.5)),
        Shape::Group { first: 0, count: 1 },
        Shape::Group { first: 0, count: 2 },
        Shape::Group { first: 0, count: 0 },
    ];
    let children = [
        Child {
            pose: at(1.0),
            shape: 0,
        },
        Child {
            pose: at(1_000_001.0),
            shape: 0,
        },
    ];
    let host = Slide {
        shapes: &shapes,
        children: &children,
    };
    assert!(rt; host.children(1).len() == 1);
    assert!(rt; host.children(2).is_empty());
    assert!(rt; host.kind(1).is_some());
    assert!(rt; host.kind(2).is_none());
    assert!(rt; host.kind(3).is_none());
    assert!(rt; host.kind(4).is_none());
    assert!(rt; host.aabb(1, at(4.0)).maxs.x == 5.5);
    assert!(rt; host.overlap(at(0.75), 0, 1) == Ok(false));
    assert!(rt; host.overlap(at(-0.25), 0, 1) == Ok(true));
}

#[test]
fn a_recorded_row_is_taken_up_to_its_fraction(rt: HostRuntime) {
    let shapes = [Listed {
        kind: ShapeKind::Proxy,
        aabb: Aabb::around(Vector::zero(), Vector::splat(0.5)),
        first: 0,
        count: 0,
    }];
    let rows = [Row {
        fast: 0,
        target: 0,
        cast: CastOutcome::Separated(0.25),
        time: None,
        overlap: Some(true),
    }];
    let host = Recorded {
        shapes: &shapes,
        children: &[],
        rows: &rows,
    };
    assert!(rt; host.proxy_cast(toward(4.5), 1.0) == CastOutcome::Separated(0.25));
    assert!(rt; host.proxy_cast(toward(4.5), 0.125) == CastOutcome::Separated(0.125));
    assert!(rt; host.overlap(at(0.0), 0, 0) == Ok(true));
    assert!(rt; host.overlap(at(0.0), 0, 1) == Ok(false));
}

#[test]
fn a_flight_stops_at_its_nearest_piece(rt: HostRuntime) -> Result<(), Fail> {
    let shapes = [
        Shape::Cuboid(Vector::splat(0.5)),
        Shape::Group { first: 0, count: 2 },
    ];
    let children = [
        Child {
            pose: at(-1.0),
            shape: 0,
        },
        Child {
            pose: at(1.0),
            shape: 0,
        },
    ];
    let host = Slide {
        shapes: &shapes,
        children: &children,
    };
    let flight = Flight {
        fast: 1,
        start: at(0.0),
        end: at(8.0),
        target: 0,
        pose: at(6.0),
        pair: PairKind::Solid,
    };
    let Ok(report) = cast_flight(&host, flight) else {
        return Err(Fail::new("refused"));
    };
    let Casts::Pieces(outcomes) = &report.casts else {
        return Err(Fail::new("not cast piece by piece"));
    };
    assert!(rt; outcomes.len() == 2);
    assert!(rt; report.stands.translation.x == 4.0);
    Ok(())
}
