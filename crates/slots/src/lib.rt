//! A generational slot store. The caller owns its memory and lends it at each call: a [`Header`] and a slice of [`Slot`]s.
//! One text serves every kind of record.
//!
//! A new record takes the slot that was freed last, or else the first one that was never used.
//! The generation of a slot starts at 0 and rises by 1 each time the slot is freed, so that an old handle never finds a new record.
//! A slot that is freed at the last generation, 4,294,967,295, is retired for good.
//!
//! A store is the slots that are passed, no fewer and no more: where only the first `n` of the lent slots are opened, pass `&mut slots[0..n]`,
//! and those past them are neither read nor written.
//!
//! Lent memory may hold anything. So no call requires anything of it: each is defined on any content, `valid` tells whether the rules
//! are obeyed, and where they are, no call answers `Fault::Broken`.
//!
//! Header and slots are two parameters, and no struct of both: what a step does needs the slots alone, and a struct of two borrows
//! would be made anew for each of the other calls.
#![tactic(auto)]

mod fault;
mod iter;

ghost use Rattle.std.specs.Prelude.{◌≡◌, ◌<◌, true, length, is_some, IfOk, Decides};
ghost use Rattle.std.specs.Option.{option_map};
ghost use Rattle.slots.specs.Store.{slot_at, found, state, emptied, extended, vacant_in, next_handle, written, inserted, freed, removed, replaced};
ghost use Rattle.slots.specs.Rules.{fitting, laid_out, free_count, free_link, walks, orderly, Valid};
ghost use Rattle.slots.specs.Laws.{RulesKept, IsMap, DeadForGood, RefusalsSpare, LastInFirstOut, RetiredForGood, NextIsAnswered};

pub use fault::Fault;
use geometry::Handle;
pub use iter::{LiveRecords, live_records};

/// A place for a record. A free slot has the generation that its next record gets, and links to the slot that was freed before it.
#[derive(Clone, Copy, PartialEq, Eq, Debug)]
pub enum Slot<T> {
    Unused,
    Free { generation: u32, next: Option<u32> },
    Retired,
    Live { generation: u32, value: T },
}

/// The slot that was freed last, and how many slots were ever used: those are the first ones.
#[derive(Clone, Copy, PartialEq, Eq, Debug)]
pub struct Header {
    pub free: Option<u32>,
    pub used: u32,
}

/// Where the next record goes, and the header once it is there.
#[derive(Clone, Copy)]
struct Vacancy {
    handle: Handle,
    after: Header,
}

/// Makes the slots an empty store, and answers its header.
pub fn open<T: Copy>(slots: &mut [Slot<T>]) -> Header
    ensures { state result slots.new ≡ emptied slots.old }
{
    slots.fill(Slot::Unused);
    Header {
        free: None,
        used: 0,
    }
}

/// The record that `handle` names.
pub fn get<T>(slots: &[Slot<T>], handle: Handle) -> Option<&T>
    ensures value { option_map (λ x. x.now) result ≡ found slots.now handle }
    ensures within { is_some result ≡ true → handle.slot < length slots.now }
{
    match slots.get(handle.slot as usize)? {
        Slot::Live { generation, value } if *generation == handle.generation => Some(value),
        _ => None,
    }
}

/// The handle that `insert` would answer now, or its refusal.
pub fn next_handle<T>(header: &Header, slots: &[Slot<T>]) -> Result<Handle, Fault>
    ensures { result ≡ next_handle (state header.now slots.now) }
{
    Ok(vacant(header, slots)?.handle)
}

/// Puts `value` into the slot that was freed last, or else into the first one that was never used.
pub fn insert<T: Copy>(
    header: &mut Header,
    slots: &mut [Slot<T>],
    value: T,
) -> Result<Handle, Fault>
    ensures { (state header.new slots.new, result) ≡ inserted (state header.old slots.old) value }
{
    let vacancy = vacant(header, slots)?;
    write(slots, vacancy.handle, value);
    *header = vacancy.after;
    Ok(vacancy.handle)
}

/// Where the next record goes: the slot that was freed last comes first.
fn vacant<T>(header: &Header, slots: &[Slot<T>]) -> Result<Vacancy, Fault>
    ensures value { result ≡ vacant_in (state header.now slots.now) }
    ensures within { IfOk result (λ v. v.handle.slot < length slots.now) }
{
    let Some(slot) = header.free else {
        return unused(*header, slots.len());
    };
    let Some(Slot::Free { generation, next }) = slots.get(slot as usize) else {
        return Err(Fault::Broken);
    };
    Ok(Vacancy {
        handle: Handle {
            slot,
            generation: *generation,
        },
        after: Header {
            free: *next,
            used: header.used,
        },
    })
}

/// The first of `count` slots that was never used. The last number is left out, since the header could not count it.
fn unused(header: Header, count: usize) -> Result<Vacancy, Fault>
    ensures value { result ≡ extended header count }
    ensures within { IfOk result (λ v. v.handle.slot < count) }
{
    let slot = header.used;
    if slot as usize >= count || slot == u32::MAX {
        return Err(Fault::Full);
    }
    Ok(Vacancy {
        handle: Handle {
            slot,
            generation: 0,
        },
        after: Header {
            free: header.free,
            used: slot + 1,
        },
    })
}

/// Writes a record into the slot of `handle`.
fn write<T: Copy>(slots: &mut [Slot<T>], handle: Handle, value: T)
    requires { handle.slot < length slots.old }
    ensures { slots.new ≡ written slots.old handle value }
{
    slots[handle.slot as usize] = Slot::Live {
        generation: handle.generation,
        value,
    };
}

/// Takes the record that `handle` names out, and frees its slot.
pub fn remove<T: Copy>(
    header: &mut Header,
    slots: &mut [Slot<T>],
    handle: Handle,
) -> Result<T, Fault>
    ensures { (state header.new slots.new, result) ≡ removed (state header.old slots.old) handle }
{
    let value = *get(slots, handle).ok_or(Fault::NotLive)?;
    free(header, slots, handle);
    Ok(value)
}

/// Frees the slot of `handle`, or retires it at the last generation.
fn free<T: Copy>(header: &mut Header, slots: &mut [Slot<T>], handle: Handle)
    requires { handle.slot < length slots.old }
    ensures { state header.new slots.new ≡ freed (state header.old slots.old) handle }
{
    let i = handle.slot as usize;
    if handle.generation == u32::MAX {
        slots[i] = Slot::Retired;
    } else {
        slots[i] = Slot::Free {
            generation: handle.generation + 1,
            next: header.free,
        };
        header.free = Some(handle.slot);
    }
}

/// Replaces the record that `handle` names.
pub fn replace<T: Copy>(slots: &mut [Slot<T>], handle: Handle, value: T) -> Result<(), Fault>
    ensures { (slots.new, result) ≡ replaced slots.old handle value }
{
    if get(slots, handle).is_none() {
        return Err(Fault::NotLive);
    }
    write(slots, handle, value);
    Ok(())
}

/// Whether header and slots obey the rules of the store. It reads each slot three times at most.
pub fn valid<T>(header: &Header, slots: &[Slot<T>]) -> bool
    ensures value { result ≡ orderly (state header.now slots.now) }
    ensures decides { Decides result (Valid (state header.now slots.now)) }
{
    let used = header.used as usize;
    slots.len() <= u32::MAX as usize
        && used <= slots.len()
        && laid_out(slots, used)
        && linked(slots, header.free, count_free(slots))
}

/// Whether the slots below `used` were used, and those from there on were not.
fn laid_out<T>(slots: &[Slot<T>], used: usize) -> bool
    ensures { result ≡ laid_out used 0 slots.now }
{
    slots
        .iter()
        .enumerate()
        .all(|(i, slot)| fits(slot, i < used))
}

/// Whether a slot may stand where slots were used, or where none was.
// a bool that picks no step: a fact of the slot's place
fn fits<T>(slot: &Slot<T>, used: bool) -> bool
    ensures { result ≡ fitting slot.now used }
{
    match slot {
        Slot::Unused => !used,
        Slot::Free { generation, .. } => used && *generation > 0,
        Slot::Retired | Slot::Live { .. } => used,
    }
}

/// How many slots are free.
fn count_free<T>(slots: &[Slot<T>]) -> usize
    ensures { result ≡ free_count slots.now }
{
    slots
        .iter()
        .filter(|slot| matches!(slot, Slot::Free { .. }))
        .count()
}

/// Whether the links lead from `head` through `count` free slots and end there.
/// With as many steps as there are free slots, that is so only if each of them stands on the way once.
fn linked<T>(slots: &[Slot<T>], head: Option<u32>, count: usize) -> bool
    ensures { result ≡ walks slots.now head count }
{
    let mut at = head;
    for _turn in 0..count {
        let Some(slot) = at else {
            return false;
        };
        let Some(next) = link_of(slots, slot) else {
            return false;
        };
        at = next;
    }
    at.is_none()
}

/// Where the free slot at a number leads. There is no answer where none is free there.
fn link_of<T>(slots: &[Slot<T>], slot: u32) -> Option<Option<u32>>
    ensures { result ≡ free_link (slot_at slots.now slot) }
{
    match slots.get(slot as usize)? {
        Slot::Free { next, .. } => Some(*next),
        _ => None,
    }
}

/// The rules hold in an opened store, and stay so under every operation; where they hold, nothing is found broken, and an insert is
/// refused only where each slot is live or retired.
pub fn rules_are_kept<T>()
    ensures { RulesKept T }
{}

/// A store that obeys the rules is a map from live handles to records, and an insert answers a handle that was not live.
pub fn store_is_a_map<T>()
    ensures { IsMap T }
{}

/// A handle whose record was removed is dead for ever: whatever is done, it finds nothing, and no insert answers it.
/// So no handle is ever answered twice.
pub fn dead_handles_stay_dead<T>()
    ensures { DeadForGood T }
{}

/// A refused operation changes nothing, on any content.
pub fn refusals_change_nothing<T>()
    ensures { RefusalsSpare T }
{}

/// The free slots are a stack: last freed, first taken, over any sequence.
pub fn last_freed_is_first_taken<T>()
    ensures { LastInFirstOut T }
{}

/// A slot that was freed at the last generation is retired, and no insert answers it again, whatever is done.
pub fn retired_slots_stay_retired<T>()
    ensures { RetiredForGood T }
{}

/// An insert answers what `next_handle` says, on any content.
pub fn next_handle_is_answered<T>()
    ensures { NextIsAnswered T }
{}
