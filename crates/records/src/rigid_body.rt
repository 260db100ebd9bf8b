//! Bodies.
ghost use Rattle.std.specs.Prelude.{◌≡◌};
ghost use Rattle.records.specs.Bodies.{is_dynamic, is_fixed, is_bullet};

use crate::collider_list::ColliderList;
use geometry::{Pose, RigidBodyType, Vector};

/// A body: where it is and is to be, how it moves, whether it is to be swept, and its colliders.
#[derive(Clone, Copy)]
pub struct RigidBody {
    pub kind: RigidBodyType,
    pub position: Pose,
    pub next: Pose,
    pub centre: Vector,
    pub linvel: Vector,
    pub angvel: Vector,
    pub bullet: bool,
    pub marked: bool,
    pub colliders: ColliderList,
}

impl RigidBody {
    pub fn is_dynamic(&self) -> bool
        ensures { result ≡ is_dynamic self.now.kind }
    {
        self.kind == RigidBodyType::Dynamic
    }

    pub fn is_fixed(&self) -> bool
        ensures { result ≡ is_fixed self.now.kind }
    {
        self.kind == RigidBodyType::Fixed
    }

    /// Whether it is Dynamic with the bullet switch on.
    pub fn is_bullet(&self) -> bool
        ensures { result ≡ is_bullet self.now }
    {
        self.is_dynamic() && self.bullet
    }
}
