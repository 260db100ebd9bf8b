//! The pairs of one swept collider.
//!
//! The fraction that is reached and the space for hits go side by side: of a slice that is lent to a space within another struct, the
//! check does not know what it ends as.
ghost use Rattle.std.specs.Prelude.{◌≡◌, option_copied};
ghost use Rattle.spaces.specs.Spaces.{state, SameSpace};
ghost use Rattle.pairs.specs.Pairs.{fast_of};
ghost use Rattle.sweeps.specs.Env.{hall_of};
ghost use Rattle.sweeps.specs.Sweeps.{noted_by, judged, met, passed_over, candidate_by, candidate_swept, candidates_swept};

use crate::hall::{Hall, PseudoHit, PseudoHitMode};
use finders::{Filter, Finder};
use geometry::ColliderHandle;
use hosts::Host;
use outcomes::PairKind;
use pair_casts::{FastShape, Target, cast_collider_pair};
use pairs::{Candidate, FastCollider, pair_kind, parent_body, target_collider_pose};
use records::Collider;
use slots::get;
use spaces::Space;

/// A collider that is swept, with its shape on its way, among what a hall has.
#[derive(Drop)]
pub struct FastSweep<'a, H, D, F> {
    pub hall: &'a Hall<'a, H, D, F>,
    pub mode: PseudoHitMode,
    pub fast: FastCollider<'a>,
    pub shape: &'a FastShape,
}

impl<'a, H: Host, D: Finder, F: Filter> FastSweep<'a, H, D, F> {
    /// Notes an accepted fraction of a pseudo pair.
    fn note(&self, handle: ColliderHandle, fraction: f32, hits: &mut Space<PseudoHit>)
        ensures same_space { SameSpace hits.old hits.new }
        ensures value { state hits.new ≡ noted_by self.now.mode (fast_of self.now.fast) handle fraction (state hits.old) }
    {
        if let PseudoHitMode::Record(result) = self.mode {
            hits.push(PseudoHit {
                result,
                first: self.fast.handle,
                second: handle,
                fraction,
            });
        }
    }

    /// Takes what a pair accepts: of a solid pair it becomes the body's fraction, of a pseudo pair it is noted.
    fn judge(
        &self,
        handle: ColliderHandle,
        pair: PairKind,
        accepted: Option<f32>,
        reached: f32,
        hits: &mut Space<PseudoHit>,
    ) -> f32
        ensures same_space { SameSpace hits.old hits.new }
        ensures value { (state hits.new, result) ≡ judged self.now.mode (fast_of self.now.fast) handle pair accepted (state hits.old, reached) }
    {
        let Some(fraction) = accepted else {
            return reached;
        };
        match pair {
            PairKind::Solid => fraction,
            PairKind::Pseudo => {
                self.note(handle, fraction, hits);
                reached
            }
        }
    }

    /// Casts at an admitted collider, under the fraction that is reached.
    fn cast_candidate(&self, other: &Candidate, reached: f32, hits: &mut Space<PseudoHit>) -> f32
        ensures same_space { SameSpace hits.old hits.new }
        ensures value { (state hits.new, result) ≡ met (hall_of H.Host D.Finder F.Filter self.now.hall.now) self.now.mode (fast_of self.now.fast) self.now.shape.now other.now.handle other.now.collider.now (option_copied other.now.body) (state hits.old, reached) }
    {
        let hall = self.hall;
        let pair = pair_kind(self.fast.collider, other.collider);
        let target = Target {
            shape: other.collider.shape,
            pose: target_collider_pose(hall.host, other.collider, other.body),
            pair,
        };
        let accepted = cast_collider_pair(hall.host, self.shape, target, hall.step, reached);
        self.judge(other.handle, pair, accepted, reached, hits)
    }

    /// Whether the pair with a collider has no part in a sweep that ignores pseudo pairs.
    fn passes_over(&self, collider: &Collider) -> bool
        ensures { result ≡ passed_over self.now.mode self.now.fast.collider.now collider.now }
    {
        matches!(
            (self.mode, pair_kind(self.fast.collider, collider)),
            (PseudoHitMode::Ignore, PairKind::Pseudo)
        )
    }

    /// Casts at a collider with its body, if it is admitted.
    fn handle_live(&self, other: &Candidate, reached: f32, hits: &mut Space<PseudoHit>) -> f32
        ensures same_space { SameSpace hits.old hits.new }
        ensures value { (state hits.new, result) ≡ candidate_by (hall_of H.Host D.Finder F.Filter self.now.hall.now) self.now.mode (fast_of self.now.fast) self.now.shape.now other.now.handle other.now.collider.now (option_copied other.now.body) (state hits.old, reached) }
    {
        if self.fast.admits(self.hall.filter, other) && !self.passes_over(other.collider) {
            self.cast_candidate(other, reached, hits)
        } else {
            reached
        }
    }

    /// Casts at a reported collider, if it is live and admitted, and answers how far the body comes then.
    pub fn handle_candidate(
        &self,
        handle: ColliderHandle,
        reached: f32,
        hits: &mut Space<PseudoHit>,
    ) -> f32
        ensures same_space { SameSpace hits.old hits.new }
        ensures value { (state hits.new, result) ≡ candidate_swept (hall_of H.Host D.Finder F.Filter self.now.hall.now) self.now.mode (fast_of self.now.fast) self.now.shape.now (state hits.old, reached) handle }
    {
        let Some(collider) = get(self.hall.colliders, handle.0) else {
            return reached;
        };
        let other = Candidate {
            handle,
            collider,
            body: parent_body(self.hall.bodies, collider),
        };
        self.handle_live(&other, reached, hits)
    }

    /// Casts at the reported colliders, one after the other.
    pub(crate) fn handle_candidates(
        &self,
        candidates: &[ColliderHandle],
        start: f32,
        hits: &mut Space<PseudoHit>,
    ) -> f32
        ensures same_space { SameSpace hits.old hits.new }
        ensures value { (state hits.new, result) ≡ candidates_swept (hall_of H.Host D.Finder F.Filter self.now.hall.now) self.now.mode (fast_of self.now.fast) self.now.shape.now (state hits.old, start) candidates.now }
    {
        let mut reached = start;
        for handle in candidates {
            reached = self.handle_candidate(*handle, reached, hits);
        }
        reached
    }
}
