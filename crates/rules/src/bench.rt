//! The whole test of what is lent.
ghost use Rattle.std.specs.Prelude.{◌≡◌, Decides};
ghost use Rattle.slots.specs.Store.{state};
ghost use Rattle.rules.specs.Rules.{stores_hold};
ghost use Rattle.rules.specs.Holds.{StoresHold};
ghost use Rattle.rules.specs.Admitted.{all_admitted, AllAdmitted};

use hosts::Host;
use records::{Collider, RigidBody};
use slots::{Header, Slot, valid};

/// How many slots a bench may have for bodies.
pub const MOST_BODY_SLOTS: usize = 256;

/// How many slots a bench may have for colliders.
pub const MOST_COLLIDER_SLOTS: usize = 1_024;

/// What a bench is lent: its host, and the slots of both stores.
#[derive(Drop)]
pub struct Bench<'a, H> {
    pub host: &'a H,
    pub bodies: &'a [Slot<RigidBody>],
    pub colliders: &'a [Slot<Collider>],
}

impl<H: Host> Bench<'_, H> {
    /// Whether both stores, with these headers, obey every rule on slots, bodies and colliders.
    pub fn stores_hold(&self, bodies_header: &Header, colliders_header: &Header) -> bool
        ensures value { result ≡ stores_hold (H.answers self.now.host.now) (state bodies_header.now self.now.bodies.now) (state colliders_header.now self.now.colliders.now) }
        ensures decides { Decides result (StoresHold (H.answers self.now.host.now) (state bodies_header.now self.now.bodies.now) (state colliders_header.now self.now.colliders.now)) }
    {
        self.bodies.len() <= MOST_BODY_SLOTS
            && self.colliders.len() <= MOST_COLLIDER_SLOTS
            && valid(bodies_header, self.bodies)
            && valid(colliders_header, self.colliders)
            && self.bodies_hold()
            && self.colliders_hold()
    }

    /// Whether the host admits each live body's two poses, their products with the relative poses of its colliders, and the own poses
    /// of the colliders without a body.
    pub fn admits_all(&self) -> bool
        ensures value { result ≡ all_admitted (H.answers self.now.host.now) self.now.bodies.now self.now.colliders.now }
        ensures decides { Decides result (AllAdmitted (H.answers self.now.host.now) self.now.bodies.now self.now.colliders.now) }
    {
        self.admits_bodies() && self.admits_colliders()
    }
}
