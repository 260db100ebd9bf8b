//! Stopping bodies on their way. A port of `apply_clamps` of `ccd_solver.rs` of rapier3d 0.35.3, changed: see NOTICE.
#![tactic(auto)]

ghost use Rattle.std.specs.Prelude.{◌≡◌};
ghost use Rattle.clamps.specs.Clamps.{below, clamp_count, stopped_at, clamped_one, clamped_all};

use hosts::{Host, Sweep};
use records::RigidBody;
use slots::{Slot, get, replace};
use sweeps::BodyContinuousResult;

/// Whether a body stops before its next position.
pub fn is_clamped(swept: BodyContinuousResult) -> bool
    ensures { result ≡ below swept }
{
    swept.fraction < 1.0
}

/// The body, with the pose at a fraction of its way as its next position.
fn stopped_at<H: Host>(host: &H, body: &RigidBody, fraction: f32) -> RigidBody
    ensures { result ≡ stopped_at (H.answers host.now) body.now fraction }
{
    let sweep = Sweep {
        start: body.position,
        end: body.next,
        centre: body.centre,
    };
    RigidBody {
        next: host.pose_at(sweep, fraction),
        ..*body
    }
}

/// Stops one body, if it is to stop.
fn clamp<H: Host>(host: &H, bodies: &mut [Slot<RigidBody>], swept: BodyContinuousResult)
    ensures { bodies.new ≡ clamped_one (H.answers host.now) bodies.old swept }
{
    if !is_clamped(swept) {
        return;
    }
    let Some(body) = get(bodies, swept.handle.0) else {
        return;
    };
    let stopped = stopped_at(host, body, swept.fraction);
    // never refused: the body is live
    let _ = replace(bodies, swept.handle.0, stopped);
}

/// Stops each body whose fraction is below 1 at the pose of that fraction. Only next positions change.
pub fn apply_clamps<H: Host>(
    host: &H,
    bodies: &mut [Slot<RigidBody>],
    results: &[BodyContinuousResult],
)
    ensures { bodies.new ≡ clamped_all (H.answers host.now) bodies.old results.now }
{
    for swept in results {
        clamp(host, bodies, *swept);
    }
}

/// How many bodies stop.
pub fn count_clamps(results: &[BodyContinuousResult]) -> usize
    ensures { result ≡ clamp_count results.now }
{
    results.iter().filter(|swept| is_clamped(**swept)).count()
}
