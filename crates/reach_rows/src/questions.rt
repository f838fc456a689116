//! Questions, and what decides whether a mode answers one.
ghost use Rattle.std.specs.Prelude.{◌≡◌, ◌↔◌, IsTrue};
ghost use Rattle.reach_rows.specs.Asked.{subject as subject_in};
ghost use Rattle.reach_rows.specs.Questions.{IsStartBy};

use flow_base::{EntityId, Stamp};

/// A question about objects by their numbers.
#[derive(Clone, Copy, Debug, PartialEq, Eq)]
pub enum Question {
    /// What reaches an object, by flows no later than a time if there is one.
    Back { of: EntityId, until: Option<u64> },
    /// What an object reaches, by flows no earlier than a time if there is one.
    Fore { of: EntityId, since: Option<u64> },
}

impl Question {
    /// The object that the question is about.
    pub fn subject(&self) -> EntityId
        ensures { result.0 ≡ subject_in self.now }
    {
        match *self {
            Question::Back { of, until: _ } => of,
            Question::Fore { of, since: _ } => of,
        }
    }
}

/// The first flow of an object: when it was, and whether it leaves the object.
#[derive(Clone, Copy, Debug, PartialEq, Eq)]
pub struct First {
    pub at: Stamp,
    pub out: bool,
}

/// Whether a start leaves out no flow of an object with this first flow.
pub fn starts_by(first: First, since: Option<u64>) -> bool
    ensures { IsTrue result ↔ IsStartBy first since }
{
    match since {
        None => true,
        Some(since) => since <= first.at.ms,
    }
}
