//! How many lines of each class there were, and which malformed ones came first.
ghost use Rattle.std.specs.Prelude.{◌≡◌, ◌<◌, ◌+◌, ◌^◌, OnOk, OnErr};
ghost use Rattle.audit_lex.specs.Lexing.{class_seen};
ghost use Rattle.audit_lex.specs.Tally.{fault_number, nothing_counted, class_counted, one_counted};
ghost use Rattle.audit_lex.specs.LineClass.{Malformed};

use crate::faults::LineFault;
use crate::lexer::Lexed;
use flow_base::{Bad, List, NoMemory};
use std::alloc::Global;

/// The lines of each class, and the first malformed ones by their numbers and those of their faults.
#[derive(Drop)]
pub struct Tally {
    pub used: u64,
    pub other: u64,
    pub blank: u64,
    pub malformed: u64,
    pub bad: List<Bad>,
}

impl Tally {
    /// No lines.
    pub fn new(alloc: Global) -> Tally
        ensures { result ≡ nothing_counted }
    {
        Tally {
            used: 0,
            other: 0,
            blank: 0,
            malformed: 0,
            bad: List::new(alloc),
        }
    }

    /// Counts a line of this class. If allocation fails, nothing has changed.
    pub fn count(&mut self, number: u64, class: &Lexed<'_>, shown: usize) -> Result<(), NoMemory>
        requires { self.old.used + self.old.other + self.old.blank + self.old.malformed < 2 ^ 60 }
        ensures ok { OnOk result (self.new ≡ one_counted shown self.old
            (record { number = number; class = class_seen class.now })) }
        ensures err { OnErr result (self.new ≡ self.old) }
    {
        match class {
            Lexed::Used(_) => self.used += 1,
            Lexed::Other => self.other += 1,
            Lexed::Blank => self.blank += 1,
            Lexed::Malformed(fault) => return self.count_malformed(number, *fault, shown),
        }
        Ok(())
    }

    // Counts a malformed line, and lists it while fewer than `shown` are listed.
    fn count_malformed(
        &mut self,
        number: u64,
        fault: LineFault,
        shown: usize,
    ) -> Result<(), NoMemory>
        requires { self.old.malformed < 2 ^ 60 }
        ensures ok { OnOk result (self.new ≡ class_counted shown self.old number
            (Malformed fault)) }
        ensures err { OnErr result (self.new ≡ self.old) }
    {
        if self.bad.as_slice().len() < shown {
            self.bad.push(Bad {
                line: number,
                fault: number_of_fault(fault),
            })?;
        }
        self.malformed += 1;
        Ok(())
    }
}

// The number of a fault, in the order of the checks.
fn number_of_fault(fault: LineFault) -> u8
    ensures { result ≡ fault_number fault }
{
    match fault {
        LineFault::TooLong => 1,
        LineFault::Header => 2,
        LineFault::Missing(_) => 3,
        LineFault::Number(_) => 4,
        LineFault::Text(_) => 5,
    }
}
