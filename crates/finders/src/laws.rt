//! Laws of finders and filters, each on the contract of a function.
ghost use Rattle.std.specs.Prelude.{◌≡◌, ◌<◌, ◌≤◌, true, length, OnOk};
ghost use Rattle.finders.specs.Finders.{slot_of, held_count, takes, set_in, remove_in};
ghost use Rattle.finders.specs.FinderLaws.{Alike, ReportedWhileMet, NeverReported, ReportAlike, EmptyLaws, SettingLaws, RemovingLaws, ReportingLaws};
ghost use Rattle.finders.specs.Tables.{table_meaning};
ghost use Rattle.finders.specs.Filters.{BarringLaws};

use crate::finder::Finder;
use crate::finder_fault::FinderFault;
use crate::kind::Kind;
use crate::order::Order;
use crate::table::{LeafTable, Table};
use geometry::{Aabb, ColliderHandle};

/// What is opened empty holds nothing, and nothing is reported of it.
pub fn an_empty_finder_holds_nothing()
    ensures { EmptyLaws }
{}

/// What was set is held. A refusal changes nothing, and setting twice is setting the last.
pub fn what_was_set_is_held()
    ensures { SettingLaws }
{}

/// What was removed is not held, and every other collider is as it was.
pub fn what_was_removed_is_not_held()
    ensures { RemovingLaws }
{}

/// What was set is reported while it meets, what was removed is not, and finders that hold alike report alike, in any order.
pub fn reports_follow_what_is_held()
    ensures { ReportingLaws }
{}

/// Sets a collider's box. If that is granted, the finder, whatever it is, then reports the collider of each box that is met.
pub fn set_to_be_reported<D: Finder>(
    finder: &mut D,
    collider: ColliderHandle,
    aabb: Aabb,
) -> Result<(), FinderFault>
    ensures set { (D.meaning finder.new, result) ≡ set_in (D.meaning finder.old) collider aabb }
    ensures reported { OnOk result (ReportedWhileMet (D.listed finder.new) collider aabb) }
{
    finder.set(collider, aabb)
}

/// Removes a collider. The finder, whatever it is, then reports it of no box.
pub fn removed_from_reports<D: Finder>(finder: &mut D, collider: ColliderHandle)
    ensures removed { D.meaning finder.new ≡ remove_in (D.meaning finder.old) collider }
    ensures unreported { NeverReported (D.listed finder.new) collider }
{
    finder.remove(collider);
}

/// Of two finders that hold alike, whatever they are, each one's reports are the other's in some order.
pub fn finders_that_hold_alike_report_alike<D: Finder, E: Finder>(first: &D, second: &E)
    ensures { Alike (D.meaning first.now).held (E.meaning second.now).held → ReportAlike (D.listed first.now) (E.listed second.now) }
{}

/// A table, of whichever kind and order, has at most 1,024 slots, and holds no more colliders.
pub fn a_table_has_at_most_1024_slots<K: Kind, O: Order>(table: &Table<K, O>)
    ensures slots { length (table_meaning table.now.table).held ≤ 1024 }
    ensures colliders { held_count (table_meaning table.now.table).held ≤ 1024 }
{}

/// A leaf table has a capacity of at most 1,024.
pub fn a_leaf_table_holds_at_most_1024(table: &LeafTable)
    ensures { (table_meaning table.now.table).capacity ≤ 1024 }
{}

/// A leaf table refuses only what lies past its last slot: each slot below the capacity is taken.
pub fn a_leaf_table_takes_each_slot_below_its_capacity(table: &LeafTable, collider: ColliderHandle)
    ensures { slot_of collider < (table_meaning table.now.table).capacity → takes (table_meaning table.now.table) collider ≡ true }
{}

/// A pair is dropped in either order if it is among the first 64 listed, and only then.
pub fn exactly_the_first_64_pairs_are_barred()
    ensures { BarringLaws }
{}
