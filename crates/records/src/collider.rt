//! Colliders.
ghost use Rattle.std.specs.Prelude.{◌≡◌};
ghost use Rattle.std.specs.Option.{option_map};
ghost use Rattle.slots.specs.Store.{state};
ghost use Rattle.records.specs.Colliders.{has_bit, body_of, at_rest, next_collider};

use crate::fault::Fault;
use crate::rigid_body::RigidBody;
use geometry::{ColliderHandle, InteractionGroups, Pose, RigidBodyHandle};
use slots::{Header, Slot, next_handle};

/// The body that a collider is attached to, and where the collider stands, seen from it.
#[derive(Clone, Copy)]
pub struct ColliderParent {
    pub body: RigidBodyHandle,
    pub relative: Pose,
}

/// A shape at a pose, attached to a body or standing alone.
#[derive(Clone, Copy)]
pub struct Collider {
    pub parent: Option<ColliderParent>,
    pub position: Pose,
    pub shape: u32,
    pub sensor: bool,
    pub enabled: bool,
    pub collision: InteractionGroups,
    pub solver: InteractionGroups,
    // words of bits, as C lends them: what is not known here is kept
    pub hooks: u32,
    pub events: u32,
}

impl Collider {
    /// Whether it only reports.
    pub fn is_sensor(&self) -> bool
        ensures { result ≡ self.now.sensor }
    {
        self.sensor
    }

    /// Whether it is swept and found.
    pub fn is_enabled(&self) -> bool
        ensures { result ≡ self.now.enabled }
    {
        self.enabled
    }

    /// Whether the filter may be asked of it: the hook bit of value 1.
    pub fn has_hook(&self) -> bool
        ensures { result ≡ has_bit self.now.hooks }
    {
        self.hooks & 1 != 0
    }

    /// Whether events of it may leave: the event bit of value 1.
    pub fn has_events(&self) -> bool
        ensures { result ≡ has_bit self.now.events }
    {
        self.events & 1 != 0
    }

    /// The body that it is attached to.
    pub fn body(&self) -> Option<RigidBodyHandle>
        ensures { result ≡ body_of self.now.parent }
    {
        self.parent.map(|parent| parent.body)
    }
}

/// Whether a collider with this body is at rest: there is none, or it is Fixed.
pub fn at_rest(body: Option<&RigidBody>) -> bool
    ensures { result ≡ at_rest (option_map (λ x. x.now) body.entry) }
{
    body.is_none_or(|body| body.is_fixed())
}

/// The handle that the next collider gets.
pub fn next_collider(header: &Header, colliders: &[Slot<Collider>]) -> Result<ColliderHandle, Fault>
    ensures { result ≡ next_collider (state header.now colliders.now) }
{
    Ok(ColliderHandle(next_handle(header, colliders)?))
}
