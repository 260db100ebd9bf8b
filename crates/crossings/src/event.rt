//! Events.
ghost use Rattle.std.specs.Prelude.{◌≡◌};
ghost use Rattle.crossings.specs.Crossings.{event_number};

use geometry::ColliderHandle;

/// Two colliders began or ended to overlap: the swept one, the other one, and the flags, of which 1 says that one is a sensor.
#[derive(Clone, Copy, PartialEq, Eq, Debug)]
pub enum CollisionEvent {
    Started {
        first: ColliderHandle,
        second: ColliderHandle,
        flags: u32,
    },
    Stopped {
        first: ColliderHandle,
        second: ColliderHandle,
        flags: u32,
    },
}

impl CollisionEvent {
    /// The number that stands for its kind outside: 0 or 1.
    // no `From`: the number says nothing of the colliders
    pub fn number(self) -> u8
        ensures { result ≡ event_number self }
    {
        match self {
            CollisionEvent::Started { .. } => 0,
            CollisionEvent::Stopped { .. } => 1,
        }
    }
}
