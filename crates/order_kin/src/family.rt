//! What is known of the processes of a node.
ghost use Rattle.std.specs.Prelude.{◌≡◌, ℕ, Some, true, false, OnOk, if◌then◌else◌};
ghost use Rattle.order_kin.specs.Broods.{no_brood, born, forked};
ghost use Rattle.order_kin.specs.Families as families;
ghost use Rattle.order_kin.specs.Families.{is_same, empty, nobody, Known, Broods, known_met, broods_met, known_by, broods_by, kid_of, fork_of, family_after, child_with, is_known_at, brood_at, Keeps, IsFamily, StandsFor};

use crate::brood::{Brood, Fork, Kid};
use crate::heard::{Deed, Heard};
use flow_base::NoMemory;
use std::alloc::Global;
use std::collections::{BTreeMap, BTreeSet};
use std::marker::Model;

/// Which processes were seen that haven't ended, and the forks and children of each.
#[derive(Drop)]
pub struct Family {
    alloc: Global,
    known: BTreeSet<u32>,
    broods: BTreeMap<u32, Brood>,
}

impl Model for Family {
    ghost use Rattle.order_kin.specs.Families.{Home};

    ghost Value = { Home };

    ghost view = { λ a. record { known = a.known.keys; broods = a.broods.entries } };
}

impl Family {
    /// Nothing was seen.
    pub fn new(alloc: Global) -> Family
        ensures is { result ≡ empty }
        ensures nobody { StandsFor result nobody }
    {
        Family {
            alloc,
            known: BTreeSet::new(alloc),
            broods: BTreeMap::new(alloc),
        }
    }

    /// What was seen is so no longer.
    pub fn clear(&mut self)
        ensures is { self.new ≡ empty }
        ensures nobody { StandsFor self.new nobody }
    {
        self.known.clear();
        self.broods.clear();
    }

    /// A call was read.
    pub fn hear(&mut self, heard: Heard) -> Result<(), NoMemory>
        ensures { OnOk result ((family : families.Family) → StandsFor self.old family
            → StandsFor self.new (family_after (Some heard) family)) }
    {
        self.meet(heard)?;
        self.follow(heard)
    }

    /// The child that a call has begun, if it is a fork of which it can be told.
    pub fn child(&self, heard: Heard) -> Option<u32>
        ensures { (known : Known) (broods : Broods) → IsFamily self.now known broods
            → result ≡ child_with broods heard heard.deed }
    {
        match heard.deed {
            Deed::Forks { answer: _ } => match self.broods.get(&heard.pid) {
                Some(brood) => brood.told(heard.ms, heard.serial),
                None => None,
            },
            _ => None,
        }
    }

    // The process of a call was seen.
    fn meet(&mut self, heard: Heard) -> Result<(), NoMemory>
        ensures { OnOk result (IsFamily self.new (known_met (is_known_at self.old) heard)
            (broods_met (is_known_at self.old heard.pid) (brood_at self.old) heard)) }
    {
        if self.known.contains(&heard.pid) {
            return Ok(());
        }
        self.bear(heard)?;
        self.known.insert(heard.pid)?;
        Ok(())
    }

    // A child of the parent of a call was seen.
    fn bear(&mut self, heard: Heard) -> Result<(), NoMemory>
        ensures { OnOk result (Keeps self.old self.new heard.parent
            (born (kid_of heard) (brood_at self.old heard.parent))) }
    {
        let mut brood = self.take(heard.parent);
        brood.bear(Kid {
            pid: heard.pid,
            ms: heard.ms,
        })?;
        self.keep(heard.parent, brood)
    }

    // What a call did is known.
    fn follow(&mut self, heard: Heard) -> Result<(), NoMemory>
        ensures { OnOk result (IsFamily self.new (known_by heard.deed (is_known_at self.old) heard)
            (broods_by heard.deed (brood_at self.old) heard)) }
    {
        match heard.deed {
            Deed::Nothing => Ok(()),
            Deed::Forks { answer } => self.fork(heard, answer),
            Deed::Ends => {
                self.end(heard.pid);
                Ok(())
            }
        }
    }

    // The process of a call has forked.
    fn fork(&mut self, heard: Heard, answer: u32) -> Result<(), NoMemory>
        ensures { OnOk result (Keeps self.old self.new heard.pid
            (forked (fork_of heard answer) (brood_at self.old heard.pid))) }
    {
        let mut brood = self.take(heard.pid);
        brood.fork(Fork {
            ms: heard.ms,
            serial: heard.serial,
            answer,
        })?;
        self.keep(heard.pid, brood)
    }

    // A process has ended.
    fn end(&mut self, pid: u32)
        ensures known { (p : ℕ) → is_known_at self.new p
            ≡ (if is_same pid p then false else is_known_at self.old p) }
        ensures broods { (p : ℕ) → brood_at self.new p
            ≡ (if is_same pid p then no_brood else brood_at self.old p) }
    {
        let _ = self.known.remove(&pid);
        let _ = self.broods.remove(&pid);
    }

    // The forks and children of a process, which are taken out.
    fn take(&mut self, pid: u32) -> Brood
        ensures here { result ≡ brood_at self.old pid }
        ensures others { (p : ℕ) → is_same pid p ≡ false
            → brood_at self.new p ≡ brood_at self.old p }
        ensures known { self.new.known ≡ self.old.known }
    {
        match self.broods.remove(&pid) {
            Some(brood) => brood,
            None => Brood::new(self.alloc),
        }
    }

    // The forks and children of a process are put back.
    fn keep(&mut self, pid: u32, brood: Brood) -> Result<(), NoMemory>
        ensures { OnOk result (Keeps self.old self.new pid brood) }
    {
        self.broods.insert(pid, brood)?;
        Ok(())
    }
}
