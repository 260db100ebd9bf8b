//! What is reported, and in which order.
use crate::samples::{collider, cube};
use backward::Backward;
use finders::{Finder, FinderFault, LeafTable};
use geometry::Aabb;

/// The next number above 1.
const ABOVE_ONE: f32 = 1.000_000_1;

/// How many of room for four are reported.
fn found<D: Finder>(finder: &D, question: Aabb, p: f32) -> usize {
    let mut out = [collider(9, 9); 4];
    finder.report(question, p, &mut out)
}

/// Sets four colliders, of which the one in slot 3 lies apart.
fn fill<D: Finder>(finder: &mut D) -> Result<(), FinderFault> {
    finder.set(collider(5, 0), cube(0.0, 1.0))?;
    finder.set(collider(1, 7), cube(0.0, 1.0))?;
    finder.set(collider(3, 0), cube(4.0, 5.0))?;
    finder.set(collider(6, 0), cube(0.0, 1.0))
}

#[test]
fn boxes_that_touch_meet(rt: HostRuntime) {
    let mut finder = LeafTable::new(8);
    assert!(rt; finder.set(collider(2, 0), cube(0.0, 1.0)).is_ok());
    assert_eq!(rt; found(&finder, cube(1.0, 2.0), 0.0), 1);
    assert_eq!(rt; found(&finder, cube(1.0, 2.0), -0.0), 1);
    assert_eq!(rt; found(&finder, cube(-1.0, 0.0), 0.0), 1);
    assert_eq!(rt; found(&finder, cube(ABOVE_ONE, 2.0), 0.0), 0);
    assert_eq!(rt; found(&finder, cube(ABOVE_ONE, 2.0), -0.0), 0);
}

#[test]
fn boxes_are_loosened(rt: HostRuntime) {
    let mut finder = LeafTable::new(8);
    assert!(rt; finder.set(collider(2, 0), cube(0.0, 1.0)).is_ok());
    assert_eq!(rt; found(&finder, cube(ABOVE_ONE, 2.0), 0.000_001), 1);
    assert_eq!(rt; found(&finder, cube(1.5, 2.0), 0.5), 1);
    assert_eq!(rt; found(&finder, cube(1.5, 2.0), 0.25), 0);
    assert_eq!(rt; found(&finder, cube(1_000_000.0, 2_000_000.0), 3.0e38), 1);
    assert_eq!(rt; found(&finder, cube(0.25, 0.75), -0.25), 1);
    assert_eq!(rt; found(&finder, cube(0.25, 0.75), -1.0), 0);
}

#[test]
fn each_finder_has_its_order(rt: HostRuntime) {
    let mut upward = LeafTable::new(8);
    let mut downward = Backward::new(8, 8);
    assert!(rt; fill(&mut upward).is_ok() && fill(&mut downward).is_ok());
    let mut out = [collider(9, 9); 4];
    assert_eq!(rt; upward.report(cube(0.5, 2.0), 0.0, &mut out), 3);
    assert!(rt; out[0] == collider(1, 7) && out[1] == collider(5, 0));
    assert!(rt; out[2] == collider(6, 0) && out[3] == collider(9, 9));
    assert_eq!(rt; downward.report(cube(0.5, 2.0), 0.0, &mut out), 3);
    assert!(rt; out[0] == collider(6, 0) && out[1] == collider(5, 0));
    assert!(rt; out[2] == collider(1, 7) && out[3] == collider(9, 9));
}

#[test]
fn a_short_space_takes_the_first(rt: HostRuntime) {
    let mut finder = LeafTable::new(8);
    assert!(rt; fill(&mut finder).is_ok());
    let mut out = [collider(9, 9); 2];
    assert_eq!(rt; finder.report(cube(0.0, 1.0), 0.0, &mut out), 2);
    assert!(rt; out[0] == collider(1, 7) && out[1] == collider(5, 0));
    let mut none = [collider(9, 9); 0];
    assert_eq!(rt; finder.report(cube(0.0, 1.0), 0.0, &mut none), 0);
}
