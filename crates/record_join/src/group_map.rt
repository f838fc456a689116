//! The groups that wait.
//!
//! The group of the greatest key stands by itself, before it is put into the map of the others: mostly it is the only one, and
//! the next record belongs to it. So the map is asked only for events that overlap.
ghost use Rattle.std.specs.Prelude.{◌≡◌, ◌≢◌, ◌↔◌, ◌++◌, [], ◌∷◌, OnOk, OnErr, IfSome, IsNone, map};
ghost use Rattle.std.specs.Prelude.{length, if◌then◌else◌, Some, None, false, option_map};
ghost use Rattle.std.specs.declared.cmp.Ordering.TheVariants.{Less, Equal, Greater};
ghost use Rattle.std.specs.List.Sorted.{IsStrictlySortedBy};
ghost use Rattle.std.specs.Map.{lookup, keys_of};
ghost use Rattle.record_join.specs.Keys.{is_key, key_cmp};
ghost use Rattle.record_join.specs.Events.{is_excess};
ghost use Rattle.record_join.specs.StandsFor.{records_in, shut, grown};
ghost use Rattle.record_join.specs.Split.{Entry, IsSplit, against, first_of, joined, more_of, shut_entry};
ghost use Rattle.audit_lex.specs.declared.header.EventKey.{EventKey};

use crate::group::{Group, is_full};
use crate::parts::Parts;
use crate::spare::Spare;
use audit_lex::EventKey;
use audit_record::Record;
use flow_base::{Limits, NoMemory};
use std::alloc::Global;
use std::cmp::Ordering;
use std::collections::BTreeMap;
use std::marker::Model;

/// The groups of lesser keys.
type Lesser = BTreeMap<EventKey, Group>;

/// The group of the greatest key, if any group waits.
type Last = Option<(EventKey, Group)>;

/// The waiting groups, the least key first.
#[derive(Drop)]
pub struct Groups {
    lesser: Lesser,
    last: Last,
}

impl Model for Groups {
    ghost use Rattle.std.specs.Prelude.{List};
    ghost use Rattle.record_join.specs.Split.{Entry, IsSplit, joined};

    ghost Value = { List Entry };

    ghost view = { λ a. joined a.lesser.entries a.last };

    ghost invariant = { λ a. IsSplit a.lesser.entries a.last };
}

impl Groups {
    /// No group.
    pub fn new(alloc: Global) -> Groups
        ensures { result ≡ [] }
    {
        Groups {
            lesser: BTreeMap::new(alloc),
            last: None,
        }
    }

    /// How many groups wait.
    pub fn len(&self) -> usize
        ensures { result ≡ length self.now }
    {
        let lesser = self.lesser.len();
        match &self.last {
            Some(_) => lesser + 1,
            None => lesser,
        }
    }

    /// The groups one by one.
    pub fn parts(&self) -> Parts<'_>
        ensures { result ≡ self.now }
    {
        Parts::over(self.lesser.iter(), &self.last)
    }

    /// The least group.
    pub fn first(&self) -> Option<(&EventKey, &Group)>
        ensures { option_map (λ p. (p.0.now, p.1.now)) result ≡ first_of self.now }
    {
        match self.lesser.first_key_value() {
            Some(first) => Some(first),
            None => match &self.last {
                Some((key, group)) => Some((key, group)),
                None => None,
            },
        }
    }

    /// Takes the least group out.
    pub fn pop_first(&mut self) -> Option<(EventKey, Group)>
        ensures some { IfSome result (λ p. self.old ≡ p ∷ self.new) }
        ensures none { IsNone result ↔ (self.old ≡ []) }
    {
        match self.lesser.pop_first() {
            Some(first) => Some(first),
            None => self.last.take(),
        }
    }

    /// Whether the group of a record takes no such record any more. It is inlined, since it is asked of each record.
    #[inline(always)]
    pub fn is_excess(&self, limits: &Limits, item: &Record) -> bool
        ensures { result ≡ is_excess limits.now
            (records_in (lookup (is_key item.now.key) self.now)) item.now }
    {
        match self.find(&item.key) {
            Some(group) => is_full(group.records.as_slice(), limits, item),
            None => is_full(&[], limits, item),
        }
    }

    /// Marks the group of a key closed, if it waits.
    pub fn close(&mut self, key: &EventKey)
        ensures keys { keys_of self.new ≡ keys_of self.old }
        ensures each { (other : EventKey) → lookup (is_key other) self.new
            ≡ (if is_key key.now other then shut (lookup (is_key other) self.old)
            else lookup (is_key other) self.old) }
    {
        match place_of(&self.last, key) {
            Ordering::Equal => close_last(&mut self.last),
            Ordering::Less => close_lesser(&mut self.lesser, key),
            Ordering::Greater => {}
        }
    }

    /// Marks every group closed.
    pub fn close_all(&mut self)
        ensures { self.new ≡ map shut_entry self.old }
    {
        close_each(&mut self.lesser);
        close_last(&mut self.last);
    }

    /// Puts a record into the group of its key, which is made if it doesn't wait: its list has the memory that is spare. In
    /// place of the record any other is left. If allocation fails, nothing has changed. It is inlined, since it is done
    /// with each record.
    #[inline(always)]
    pub fn hold(
        &mut self,
        alloc: Global,
        spare: &mut Spare,
        item: &mut Record,
    ) -> Result<(), NoMemory>
        ensures each { OnOk result ((key : EventKey) → lookup (is_key key) self.new
            ≡ (if is_key item.old.key key then Some (grown (lookup (is_key key) self.old) item.old)
            else lookup (is_key key) self.old)) }
        ensures ascend { IsStrictlySortedBy key_cmp (keys_of self.new) }
        ensures err { OnErr result (self.new ≡ self.old) }
        ensures same { OnErr result (item.new ≡ item.old) }
    {
        match place_of(&self.last, &item.key) {
            Ordering::Equal => hold_last(alloc, &mut self.last, item),
            Ordering::Greater => hold_first(alloc, &mut self.lesser, &mut self.last, spare, item),
            Ordering::Less => hold_lesser(alloc, &mut self.lesser, spare, item),
        }
    }

    // The group of a key, if it waits.
    fn find(&self, key: &EventKey) -> Option<&Group>
        ensures { option_map (λ g. g.now) result ≡ lookup (is_key key.now) self.now }
    {
        match &self.last {
            Some((last, group)) => match key.cmp(last) {
                Ordering::Equal => Some(group),
                Ordering::Less => self.lesser.get(key),
                Ordering::Greater => None,
            },
            None => None,
        }
    }
}

// How a key stands to that of the last group: it is greater if there is none.
fn place_of(last: &Last, key: &EventKey) -> Ordering
    ensures { result ≡ against last.now key.now }
{
    match last {
        Some((last, _)) => key.cmp(last),
        None => Ordering::Greater,
    }
}

// Puts a record into the last group.
#[inline(always)]
fn hold_last(alloc: Global, last: &mut Last, item: &mut Record) -> Result<(), NoMemory>
    requires { last.old ≢ None }
    ensures ok { OnOk result (last.new ≡ option_map (more_of item.old) last.old) }
    ensures err { OnErr result (last.new ≡ last.old) }
    ensures same { OnErr result (item.new ≡ item.old) }
{
    match last {
        Some((_, group)) => hold_more(alloc, group, item),
        None => unreachable!(),
    }
}

// Puts one more record into a group.
#[inline(always)]
fn hold_more(alloc: Global, group: &mut Group, item: &mut Record) -> Result<(), NoMemory>
    ensures ok { OnOk result (group.new
        ≡ record group.old { records = group.old.records ++ item.old ∷ [] }) }
    ensures err { OnErr result (group.new ≡ group.old) }
    ensures same { OnErr result (item.new ≡ item.old) }
{
    group.records.exchange(alloc, item)
}

// Makes the group of a record, which is the last from now on: the one that was is put among the others.
#[inline(always)]
fn hold_first(
    alloc: Global,
    lesser: &mut Lesser,
    last: &mut Last,
    spare: &mut Spare,
    item: &mut Record,
) -> Result<(), NoMemory>
    requires split { IsSplit lesser.old.entries last.old }
    ensures ok { OnOk result (lesser.new.entries ≡ joined lesser.old.entries last.old) }
    ensures last { OnOk result
        (last.new ≡ Some (item.old.key, record { closed = false; records = item.old ∷ [] })) }
    ensures err { OnErr result
        ((lesser.new.entries ≡ lesser.old.entries) × (last.new ≡ last.old)) }
    ensures same { OnErr result (item.new ≡ item.old) }
{
    let key = item.key;
    let mut records = spare.take(alloc)?;
    records.exchange(alloc, item)?;
    if last.is_some() {
        if let Err(fault) = set_aside(lesser, last) {
            records.give_back(item);
            return Err(fault);
        }
    }
    *last = Some((
        key,
        Group {
            closed: false,
            records,
        },
    ));
    Ok(())
}

// Puts the last group among the others.
#[cold]
#[inline(never)]
fn set_aside(lesser: &mut Lesser, last: &mut Last) -> Result<(), NoMemory>
    requires split { IsSplit lesser.old.entries last.old }
    ensures ok { OnOk result (lesser.new.entries ≡ joined lesser.old.entries last.old) }
    ensures err { OnErr result
        ((lesser.new.entries ≡ lesser.old.entries) × (last.new ≡ last.old)) }
{
    let Some((key, group)) = last.take() else {
        return Ok(());
    };
    match lesser.insert(key, group) {
        Ok(_) => Ok(()),
        Err(failed) => {
            *last = Some(failed.value);
            Err(NoMemory)
        }
    }
}

// Puts a record of a key that is below that of the last group into its group.
#[inline(never)]
fn hold_lesser(
    alloc: Global,
    lesser: &mut Lesser,
    spare: &mut Spare,
    item: &mut Record,
) -> Result<(), NoMemory>
    ensures each { OnOk result ((key : EventKey) → lookup (is_key key) lesser.new.entries
        ≡ (if is_key item.old.key key
        then Some (grown (lookup (is_key key) lesser.old.entries) item.old)
        else lookup (is_key key) lesser.old.entries)) }
    ensures ascend { IsStrictlySortedBy key_cmp (keys_of lesser.new.entries) }
    ensures err { OnErr result (lesser.new.entries ≡ lesser.old.entries) }
    ensures same { OnErr result (item.new ≡ item.old) }
{
    let key = item.key;
    match lesser.get_mut(&key) {
        Some(group) => group.records.exchange(alloc, item),
        None => {
            let mut records = spare.take(alloc)?;
            records.exchange(alloc, item)?;
            let group = Group {
                closed: false,
                records,
            };
            match lesser.insert(key, group) {
                Ok(_) => Ok(()),
                Err(failed) => {
                    let (_, mut group) = failed.value;
                    group.records.give_back(item);
                    Err(NoMemory)
                }
            }
        }
    }
}

// Marks the last group closed.
fn close_last(last: &mut Last)
    ensures { last.new ≡ option_map shut_entry last.old }
{
    match last {
        Some((_, group)) => group.closed = true,
        None => {}
    }
}

// Marks the group of a key closed, if it is among these.
fn close_lesser(lesser: &mut Lesser, key: &EventKey)
    ensures keys { keys_of lesser.new.entries ≡ keys_of lesser.old.entries }
    ensures each { (other : EventKey) → lookup (is_key other) lesser.new.entries
        ≡ (if is_key key.now other then shut (lookup (is_key other) lesser.old.entries)
        else lookup (is_key other) lesser.old.entries) }
{
    match lesser.get_mut(key) {
        Some(group) => group.closed = true,
        None => {}
    }
}

// Marks these groups closed.
fn close_each(lesser: &mut Lesser)
    ensures { lesser.new.entries ≡ map shut_entry lesser.old.entries }
{
    // `retain` is the walk whose contract says what was written.
    lesser.retain(|_, group| {
        group.closed = true;
        true
    });
}
