//! The end of a step.
ghost use Rattle.std.specs.Prelude.{◌≡◌, length};
ghost use Rattle.spaces.specs.Spaces.{state, SameSpace};
ghost use Rattle.ccd_solver.specs.Stages.{GoesOn};
ghost use Rattle.ccd_solver.specs.Scenes.{setting_of, near_of};
ghost use Rattle.ccd_solver.specs.Solver.{first_stage, both_stages, reported, solved as solved_from};

use crate::scene::{Scene, Tier};
use clamps::count_clamps;
use crossings::{CollisionEvent, EndOfStep};
use finders::{Filter, Finder};
use geometry::ColliderHandle;
use hosts::Host;
use records::RigidBody;
use slots::Slot;
use spaces::Space;
use sweeps::{BodyContinuousResult, PseudoHit};

/// What a solve answers: how many results and events are written, and how many bodies were stopped.
#[derive(Clone, Copy)]
pub struct Solved {
    pub results: usize,
    pub clamps: usize,
    pub events: usize,
}

impl<'a, H: Host, L: Finder, D: Finder, F: Filter> Scene<'a, H, L, D, F> {
    /// The stage of the non-bullets, over the list of the colliders at rest or, where that is not whole, over the full finder.
    fn run_first_stage(
        &self,
        bodies: &mut [Slot<RigidBody>],
        candidates: &mut [ColliderHandle],
        results: &mut Space<BodyContinuousResult>,
        hits: &mut Space<PseudoHit>,
    )
        ensures results { GoesOn results.old results.new }
        ensures hits { SameSpace hits.old hits.new }
        ensures stage { (bodies.new, (state results.new, state hits.new)) ≡ first_stage (setting_of H.Host F.Filter self.now (length candidates.old)) (near_of L.Finder D.Finder self.now) self.now.active.now (bodies.old, (state results.old, state hits.old)) }
    {
        if let Some(list) = self.fixed {
            self.run_stage(list, Tier::NonBullets, bodies, candidates, results, hits);
        } else {
            self.run_stage(
                self.finder,
                Tier::NonBullets,
                bodies,
                candidates,
                results,
                hits,
            );
        }
    }

    /// The stage of the non-bullets, and then that of the bullets, over the full finder.
    fn run_stages(
        &self,
        bodies: &mut [Slot<RigidBody>],
        candidates: &mut [ColliderHandle],
        results: &mut Space<BodyContinuousResult>,
        hits: &mut Space<PseudoHit>,
    )
        ensures results { GoesOn results.old results.new }
        ensures hits { SameSpace hits.old hits.new }
        ensures stages { (bodies.new, (state results.new, state hits.new)) ≡ both_stages (setting_of H.Host F.Filter self.now (length candidates.old)) (near_of L.Finder D.Finder self.now) (D.listed self.now.finder.now) self.now.active.now (bodies.old, (state results.old, state hits.old)) }
    {
        self.run_first_stage(bodies, candidates, results, hits);
        self.run_stage(
            self.finder,
            Tier::Bullets,
            bodies,
            candidates,
            results,
            hits,
        );
    }

    /// Tells what was crossed, and counts.
    fn report(
        &self,
        bodies: &[Slot<RigidBody>],
        results: &[BodyContinuousResult],
        hits: &[PseudoHit],
        events: &mut [CollisionEvent],
    ) -> Solved
        ensures { (events.new, result) ≡ reported (H.answers self.now.host.now) bodies.now self.now.colliders.now results.now hits.now events.old }
    {
        let end = EndOfStep {
            host: self.host,
            bodies,
            colliders: self.colliders,
            results,
        };
        Solved {
            results: results.len(),
            clamps: count_clamps(results),
            events: end.emit_events(hits, events),
        }
    }
}

/// Stops each active marked body at its first solid impact, non-bullets before any bullet is swept, and tells what they crossed.
// slices and counts: the caller lends the spaces, C among them, and is told how much is written
pub fn solve<H: Host, L: Finder, D: Finder, F: Filter>(
    scene: &Scene<H, L, D, F>,
    bodies: &mut [Slot<RigidBody>],
    candidates: &mut [ColliderHandle],
    results: &mut [BodyContinuousResult],
    hits: &mut [PseudoHit],
    events: &mut [CollisionEvent],
) -> Solved
    ensures { (bodies.new, results.new, hits.new, events.new, result) ≡ solved_from (setting_of H.Host F.Filter scene.now (length candidates.old)) (near_of L.Finder D.Finder scene.now) (D.listed scene.now.finder.now) scene.now.active.now bodies.old results.old hits.old events.old }
{
    let mut results = Space::new(results);
    let mut hits = Space::new(hits);
    scene.run_stages(bodies, candidates, &mut results, &mut hits);
    scene.report(bodies, results.written(), hits.written(), events)
}
