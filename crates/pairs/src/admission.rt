//! Which pairs are cast, and as what.
ghost use Rattle.std.specs.Prelude.{◌≡◌, option_copied};
ghost use Rattle.pairs.specs.Pairs.{fast_of, no_bullet, tier_allows, of_body, filtered_out, admits, pair_kind};

use crate::fast_collider::{Candidate, FastCollider};
use finders::Filter;
use geometry::RigidBodyHandle;
use outcomes::PairKind;
use records::{Collider, RigidBody, at_rest};

/// Whether a body, if there is one, is no bullet.
fn is_no_bullet(body: Option<&RigidBody>) -> bool
    ensures { result ≡ no_bullet (option_copied body.entry) }
{
    body.is_none_or(|body| !body.is_bullet())
}

/// Whether the tier of a swept body lets it meet what belongs to another: a bullet meets everything but bullets, any other body
/// only what is at rest.
pub fn tier_allows(body: &RigidBody, other: Option<&RigidBody>) -> bool
    ensures { result ≡ tier_allows body.now (option_copied other.entry) }
{
    if body.is_bullet() {
        is_no_bullet(other)
    } else {
        at_rest(other)
    }
}

/// Whether a collider belongs to a body.
fn is_of_body(collider: &Collider, body: RigidBodyHandle) -> bool
    ensures { result ≡ of_body collider.now.parent body }
{
    collider.parent.is_some_and(|parent| parent.body == body)
}

impl<'a> FastCollider<'a> {
    /// Whether the filter drops the pair. It is asked only where the hook bit is on in either, and for sensors too.
    pub fn pair_filtered_out_by_hooks<F: Filter>(&self, filter: &F, other: &Candidate) -> bool
        ensures { result ≡ filtered_out (F.keeps filter.now) (fast_of self.now) other.now.handle other.now.collider.now }
    {
        (self.collider.has_hook() || other.collider.has_hook())
            && !filter.keep(self.handle, other.handle)
    }

    /// Whether it may meet another collider.
    pub fn admits<F: Filter>(&self, filter: &F, other: &Candidate) -> bool
        ensures { result ≡ admits (F.keeps filter.now) (fast_of self.now) other.now.handle other.now.collider.now (option_copied other.now.body) }
    {
        !is_of_body(other.collider, self.owner)
            && tier_allows(self.body, other.body)
            && self.collider.collision.test(other.collider.collision)
            && !self.pair_filtered_out_by_hooks(filter, other)
    }
}

/// Whether a pair stops the swept body or is only noted: a sensor on either side, or solver groups that disagree, make it pseudo.
pub fn pair_kind(first: &Collider, second: &Collider) -> PairKind
    ensures { result ≡ pair_kind first.now second.now }
{
    if first.is_sensor() || second.is_sensor() || !first.solver.test(second.solver) {
        PairKind::Pseudo
    } else {
        PairKind::Solid
    }
}
