//! The sweeps over a slice for hits and a count beside it, which may be any: where it is past the end, no hit is written, and it stays.
ghost use Rattle.std.specs.Prelude.{◌≡◌, length};
ghost use Rattle.records.specs.Lists.{listed as listed_handles};
ghost use Rattle.pairs.specs.Pairs.{fast_of};
ghost use Rattle.sweeps.specs.Env.{hall_of};
ghost use Rattle.sweeps.specs.Sweeps.{candidate_swept, body_swept};
ghost use Rattle.sweeps.specs.Counted.{opened, left_in};

use crate::candidates::FastSweep;
use crate::colliders::BodySweep;
use crate::hall::{Hall, PseudoHit, PseudoHitMode, Reached};
use finders::{Filter, Finder};
use geometry::{ColliderHandle, RigidBodyHandle};
use hosts::Host;
use pair_casts::FastShape;
use pairs::FastCollider;
use records::RigidBody;
use spaces::Space;

/// Casts at a reported collider, if it is live and admitted.
pub fn handle_candidate<H: Host, D: Finder, F: Filter>(
    hall: &Hall<H, D, F>,
    mode: PseudoHitMode,
    fast: &FastCollider,
    shape: &FastShape,
    handle: ColliderHandle,
    reached: Reached,
    hits: &mut [PseudoHit],
) -> Reached
    ensures { (hits.new, result) ≡ left_in (candidate_swept (hall_of H.Host D.Finder F.Filter hall.now) mode (fast_of fast.now) shape.now (opened hits.old reached) handle) }
{
    let sweep = FastSweep {
        hall,
        mode,
        fast: *fast,
        shape,
    };
    let mut space = Space::after(hits, reached.hits);
    let opened = space.count();
    let fraction = sweep.handle_candidate(handle, reached.fraction, &mut space);
    Reached {
        fraction,
        hits: space.count() + (reached.hits - opened),
    }
}

/// Sweeps a body from its position to its next position: each of its colliders, in the order of its list, against what the finder
/// reports. It answers the least solid impact fraction, and writes the hits of pseudo pairs.
pub fn sweep_fast_body<'h, H: Host, D: Finder, F: Filter>(
    hall: &Hall<'h, H, D, F>,
    mode: PseudoHitMode,
    owner: RigidBodyHandle,
    body: &'h RigidBody,
    candidates: &mut [ColliderHandle],
    start: Reached,
    hits: &mut [PseudoHit],
) -> Reached
    ensures { (hits.new, result) ≡ left_in (body_swept (hall_of H.Host D.Finder F.Filter hall.now) (length candidates.old) mode owner body.now (opened hits.old start) (listed_handles body.now.colliders)) }
{
    let sweep = BodySweep {
        hall,
        mode,
        owner,
        body,
    };
    let mut space = Space::after(hits, start.hits);
    let opened = space.count();
    let fraction = sweep.run(candidates, start.fraction, &mut space);
    Reached {
        fraction,
        hits: space.count() + (start.hits - opened),
    }
}
