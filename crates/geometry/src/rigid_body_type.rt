//! The kinds of bodies.
ghost use Rattle.std.specs.Prelude.{◌≡◌};
ghost use Rattle.geometry.specs.Kinds.{body_number, body_type_of, kind_or_unknown};

use crate::unknown_number::UnknownNumber;

/// What moves a body: the solver, nothing, the positions it is given, or the velocities it is given.
#[derive(Clone, Copy, PartialEq, Eq, Debug)]
pub enum RigidBodyType {
    Dynamic,
    Fixed,
    KinematicPositionBased,
    KinematicVelocityBased,
}

/// The number that stands for it outside: 0 to 3.
impl From<RigidBodyType> for u8 {
    ghost from_gives = { λ kind number. number ≡ body_number kind };

    // no `kind as u8`: a number may not move where a case is put between others
    fn from(kind: RigidBodyType) -> u8 {
        match kind {
            RigidBodyType::Dynamic => 0,
            RigidBodyType::Fixed => 1,
            RigidBodyType::KinematicPositionBased => 2,
            RigidBodyType::KinematicVelocityBased => 3,
        }
    }
}

/// The kind that a number stands for; none above 3.
impl TryFrom<u8> for RigidBodyType {
    type Error = UnknownNumber;

    ghost try_from_gives = { λ number kind. kind ≡ kind_or_unknown body_type_of number };

    fn try_from(number: u8) -> Result<RigidBodyType, UnknownNumber> {
        match number {
            0 => Ok(RigidBodyType::Dynamic),
            1 => Ok(RigidBodyType::Fixed),
            2 => Ok(RigidBodyType::KinematicPositionBased),
            3 => Ok(RigidBodyType::KinematicVelocityBased),
            _ => Err(UnknownNumber(number)),
        }
    }
}
