//! The events of crossings.
ghost use Rattle.std.specs.Prelude.{◌≡◌};
ghost use Rattle.spaces.specs.Spaces.{state, nothing_in, SameSpace};
ghost use Rattle.crossings.specs.Crossings.{fraction_at, written as written_after, emitted_one, emitted};

use crate::crossing::EndOfStep;
use crate::event::CollisionEvent;
use hosts::Host;
use spaces::Space;
use sweeps::{BodyContinuousResult, PseudoHit};

/// The flag of events in which a sensor takes part.
// a bit of a word, as the C interface to come is to hand it on
const SENSOR: u32 = 1;

/// How far the body of a result comes; 0 where there is no such result.
fn fraction_at(results: &[BodyContinuousResult], number: usize) -> f32
    ensures { result ≡ fraction_at results.now number }
{
    results.get(number).map_or(0.0, |swept| swept.fraction)
}

/// Writes the two events of a crossing, where there is room for both.
fn write_events(hit: PseudoHit, events: &mut Space<CollisionEvent>)
    ensures same_space { SameSpace events.old events.new }
    ensures value { state events.new ≡ written_after (state events.old) hit }
{
    if events.has_room(2) {
        events.push(CollisionEvent::Started {
            first: hit.first,
            second: hit.second,
            flags: SENSOR,
        });
        events.push(CollisionEvent::Stopped {
            first: hit.first,
            second: hit.second,
            flags: SENSOR,
        });
    }
}

impl<'a, H: Host> EndOfStep<'a, H> {
    /// Writes the events of a hit, if it is a crossing.
    fn emit_hit(&self, hit: PseudoHit, events: &mut Space<CollisionEvent>)
        ensures same_space { SameSpace events.old events.new }
        ensures value { state events.new ≡ emitted_one (H.answers self.now.host.now) self.now.bodies.now self.now.colliders.now self.now.results.now (state events.old) hit }
    {
        if self.is_crossing(fraction_at(self.results, hit.result), hit) {
            write_events(hit, events);
        }
    }

    /// Writes the events of each crossing among the hits, in their order.
    fn emit_hits(&self, hits: &[PseudoHit], events: &mut Space<CollisionEvent>)
        ensures same_space { SameSpace events.old events.new }
        ensures value { state events.new ≡ emitted (H.answers self.now.host.now) self.now.bodies.now self.now.colliders.now self.now.results.now (state events.old) hits.now }
    {
        for hit in hits {
            self.emit_hit(*hit, events);
        }
    }

    /// Writes a Started and a Stopped for each crossing among the hits, in their order, and says how many events are written.
    // a slice and a count: the caller lends the space, C among them, and is told how much is written
    pub fn emit_events(&self, hits: &[PseudoHit], events: &mut [CollisionEvent]) -> usize
        ensures { record { all = events.new; count = result } ≡ emitted (H.answers self.now.host.now) self.now.bodies.now self.now.colliders.now self.now.results.now (nothing_in events.old) hits.now }
    {
        let mut space = Space::new(events);
        self.emit_hits(hits, &mut space);
        space.count()
    }
}
