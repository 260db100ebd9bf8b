//! The first impact of a step.
ghost use Rattle.std.specs.Prelude.{◌≡◌, length};
ghost use Rattle.numbers.specs.Constants.{one_f};
ghost use Rattle.sweeps.specs.Env.{hall_of};
ghost use Rattle.ccd_solver.specs.FirstImpact.{free_fraction, soonered_by, least_fraction, below_dt, time_at, first_impact};
ghost use Rattle.slots.specs.Store.{found};

use finders::{Filter, Finder};
use geometry::{ColliderHandle, RigidBodyHandle};
use hosts::Host;
use numbers::lesser;
use records::RigidBody;
use slots::get;
use spaces::Space;
use sweeps::{BodySweep, Hall, PseudoHit, PseudoHitMode};

/// How far a body comes, where pseudo pairs have no part.
fn free_fraction<H: Host, D: Finder, F: Filter>(
    hall: &Hall<H, D, F>,
    handle: RigidBodyHandle,
    body: &RigidBody,
    candidates: &mut [ColliderHandle],
) -> f32
    ensures { result ≡ free_fraction (hall_of H.Host D.Finder F.Filter hall.now) (length candidates.old) handle body.now }
{
    let mut no_hits: [PseudoHit; 0] = [];
    let sweep = BodySweep {
        hall,
        mode: PseudoHitMode::Ignore,
        owner: handle,
        body,
    };
    sweep.run(candidates, 1.0, &mut Space::new(&mut no_hits))
}

/// The least fraction so far, after one more active body.
fn sweep_free<H: Host, D: Finder, F: Filter>(
    hall: &Hall<H, D, F>,
    handle: RigidBodyHandle,
    candidates: &mut [ColliderHandle],
    least: f32,
) -> f32
    ensures { result ≡ soonered_by (hall_of H.Host D.Finder F.Filter hall.now) (length candidates.old) handle least (found hall.now.bodies.now handle.0) }
{
    match get(hall.bodies, handle.0) {
        Some(body) if body.marked => lesser(least, free_fraction(hall, handle, body, candidates)),
        _ => least,
    }
}

/// The least fraction of the active marked bodies; 1 where nothing is met.
fn least_fraction<H: Host, D: Finder, F: Filter>(
    hall: &Hall<H, D, F>,
    active: &[RigidBodyHandle],
    candidates: &mut [ColliderHandle],
) -> f32
    ensures { result ≡ least_fraction (hall_of H.Host D.Finder F.Filter hall.now) (length candidates.old) one_f active.now }
{
    let mut least = 1.0;
    for handle in active {
        least = sweep_free(hall, *handle, candidates, least);
    }
    least
}

/// A time below `dt`: the product, or the largest number below `dt` where rounding takes the product up to it.
fn below_dt(time: f32, dt: f32) -> f32
    ensures { result ≡ below_dt time dt }
{
    if time < dt { time } else { dt.next_down() }
}

/// The time of an impact at a fraction of a step; none where nothing is met or no time passes.
pub fn impact_time(fraction: f32, dt: f32) -> Option<f32>
    ensures { result ≡ time_at fraction dt }
{
    (fraction < 1.0 && 0.0 < dt).then(|| below_dt(fraction * dt, dt))
}

/// The first time at which an active marked body meets something solid on its way to its next position. It lies from 0 to below dt.
pub fn find_first_impact<H: Host, D: Finder, F: Filter>(
    hall: &Hall<H, D, F>,
    active: &[RigidBodyHandle],
    candidates: &mut [ColliderHandle],
) -> Option<f32>
    ensures { result ≡ first_impact (hall_of H.Host D.Finder F.Filter hall.now) (length candidates.old) active.now }
{
    impact_time(least_fraction(hall, active, candidates), hall.step.dt)
}
