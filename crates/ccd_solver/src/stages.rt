//! One stage of a step: the sweeps of non-bullets or of bullets, and then their clamps.
//!
//! The spaces for results and hits go side by side: of a slice that is lent to a space within another struct, the check does not know
//! what it ends as.
ghost use Rattle.std.specs.Prelude.{◌≡◌, length};
ghost use Rattle.spaces.specs.Spaces.{state, SameSpace};
ghost use Rattle.sweeps.specs.Env.{hall_of};
ghost use Rattle.ccd_solver.specs.Stages.{takes_turn, active_swept, stage_swept, staged, GoesOn};
ghost use Rattle.ccd_solver.specs.Scenes.{setting_of};

use crate::scene::{Scene, Tier};
use clamps::apply_clamps;
use finders::{Filter, Finder};
use geometry::{ColliderHandle, RigidBodyHandle};
use hosts::Host;
use records::RigidBody;
use slots::{Slot, get};
use spaces::Space;
use sweeps::{BodyContinuousResult, BodySweep, Hall, PseudoHit, PseudoHitMode};

impl Tier {
    /// Whether a body is swept in the stage of this tier: marked, and a bullet or no bullet.
    fn takes_turn(self, body: &RigidBody) -> bool
        ensures { result ≡ takes_turn self body.now }
    {
        body.marked
            && match self {
                Tier::NonBullets => !body.is_bullet(),
                Tier::Bullets => body.is_bullet(),
            }
    }
}

/// Sweeps an active body, if its turn is in this stage, and writes its result, where there is room.
fn sweep_active<H: Host, D: Finder, F: Filter>(
    hall: &Hall<H, D, F>,
    tier: Tier,
    handle: RigidBodyHandle,
    candidates: &mut [ColliderHandle],
    results: &mut Space<BodyContinuousResult>,
    hits: &mut Space<PseudoHit>,
)
    ensures results { GoesOn results.old results.new }
    ensures hits { SameSpace hits.old hits.new }
    ensures log { (state results.new, state hits.new) ≡ active_swept (hall_of H.Host D.Finder F.Filter hall.now) (length candidates.old) tier (state results.old, state hits.old) handle }
{
    let Some(body) = get(hall.bodies, handle.0) else {
        return;
    };
    if !tier.takes_turn(body) || !results.has_room(1) {
        return;
    }
    let sweep = BodySweep {
        hall,
        mode: PseudoHitMode::Record(results.count()),
        owner: handle,
        body,
    };
    let fraction = sweep.run(candidates, 1.0, hits);
    results.push(BodyContinuousResult { handle, fraction });
}

/// Sweeps the active bodies of a stage, in the order of the list.
fn sweep_stage<H: Host, D: Finder, F: Filter>(
    hall: &Hall<H, D, F>,
    tier: Tier,
    active: &[RigidBodyHandle],
    candidates: &mut [ColliderHandle],
    results: &mut Space<BodyContinuousResult>,
    hits: &mut Space<PseudoHit>,
)
    ensures results { GoesOn results.old results.new }
    ensures hits { SameSpace hits.old hits.new }
    ensures log { (state results.new, state hits.new) ≡ stage_swept (hall_of H.Host D.Finder F.Filter hall.now) (length candidates.old) tier (state results.old, state hits.old) active.now }
{
    for handle in active {
        sweep_active(hall, tier, *handle, candidates, results, hits);
    }
}

impl<'a, H: Host, L: Finder, D: Finder, F: Filter> Scene<'a, H, L, D, F> {
    /// One stage over the reports of a finder: all its sweeps, and then its clamps.
    pub(crate) fn run_stage<N: Finder>(
        &self,
        finder: &N,
        tier: Tier,
        bodies: &mut [Slot<RigidBody>],
        candidates: &mut [ColliderHandle],
        results: &mut Space<BodyContinuousResult>,
        hits: &mut Space<PseudoHit>,
    )
        ensures results { GoesOn results.old results.new }
        ensures hits { SameSpace hits.old hits.new }
        ensures stage { (bodies.new, (state results.new, state hits.new)) ≡ staged (setting_of H.Host F.Filter self.now (length candidates.old)) (N.listed finder.now) tier self.now.active.now (bodies.old, (state results.old, state hits.old)) }
    {
        let from = results.count();
        let hall = Hall {
            host: self.host,
            finder,
            filter: self.filter,
            bodies,
            colliders: self.colliders,
            step: self.step,
        };
        sweep_stage(&hall, tier, self.active, candidates, results, hits);
        apply_clamps(self.host, bodies, &results.written()[from..]);
    }
}
