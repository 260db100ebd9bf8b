//! Which colliders may interact: memberships and filters of 32 groups. A port of `interaction_groups.rs` of rapier3d 0.35.3,
//! changed: see NOTICE.
ghost use Rattle.std.specs.Prelude.{◌≡◌};
ghost use Rattle.geometry.specs.Groups.{all_groups, no_groups, agree_and, agree_or, agree, mode_number, mode_of};
ghost use Rattle.geometry.specs.Kinds.{kind_or_unknown};

use crate::unknown_number::UnknownNumber;

/// How two masks are tested against each other.
#[derive(Clone, Copy, PartialEq, Eq, Debug)]
pub enum InteractionTestMode {
    And,
    Or,
}

/// The groups that a collider belongs to, those that it interacts with, and how the two are tested.
#[derive(Clone, Copy, PartialEq, Eq, Debug)]
pub struct InteractionGroups {
    pub memberships: u32,
    pub filter: u32,
    pub mode: InteractionTestMode,
}

/// The number that stands for it outside: 0 or 1.
impl From<InteractionTestMode> for u8 {
    ghost from_gives = { λ mode number. number ≡ mode_number mode };

    // no `mode as u8`: a number may not move where a case is put between others
    fn from(mode: InteractionTestMode) -> u8 {
        match mode {
            InteractionTestMode::And => 0,
            InteractionTestMode::Or => 1,
        }
    }
}

/// The mode that a number stands for; none above 1.
impl TryFrom<u8> for InteractionTestMode {
    type Error = UnknownNumber;

    ghost try_from_gives = { λ number mode. mode ≡ kind_or_unknown mode_of number };

    fn try_from(number: u8) -> Result<InteractionTestMode, UnknownNumber> {
        match number {
            0 => Ok(InteractionTestMode::And),
            1 => Ok(InteractionTestMode::Or),
            _ => Err(UnknownNumber(number)),
        }
    }
}

impl InteractionGroups {
    /// In all groups, with all groups.
    pub fn all() -> InteractionGroups
        ensures { result ≡ all_groups }
    {
        InteractionGroups {
            memberships: u32::MAX,
            filter: u32::MAX,
            mode: InteractionTestMode::And,
        }
    }

    /// In no group, with no group.
    pub fn none() -> InteractionGroups
        ensures { result ≡ no_groups }
    {
        InteractionGroups {
            memberships: 0,
            filter: 0,
            mode: InteractionTestMode::And,
        }
    }

    /// Whether each is in a group that the other's filter has.
    pub fn test_and(self, other: InteractionGroups) -> bool
        ensures { result ≡ agree_and self other }
    {
        self.memberships & other.filter != 0 && other.memberships & self.filter != 0
    }

    /// Whether one is in a group that the other's filter has.
    pub fn test_or(self, other: InteractionGroups) -> bool
        ensures { result ≡ agree_or self other }
    {
        self.memberships & other.filter != 0 || other.memberships & self.filter != 0
    }

    /// Whether the groups agree. And wins over Or: one way is enough only where both modes are Or.
    pub fn test(self, other: InteractionGroups) -> bool
        ensures { result ≡ agree self other }
    {
        match (self.mode, other.mode) {
            (InteractionTestMode::Or, InteractionTestMode::Or) => self.test_or(other),
            _ => self.test_and(other),
        }
    }
}
