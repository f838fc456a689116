//! What the word of an event means.
ghost use Rattle.std.specs.Prelude.{◌≡◌};
ghost use Rattle.audit_gen.specs.Logs as logs;

/// What the process of an event does.
#[derive(Clone, Copy)]
pub enum Deed {
    /// It changes a file.
    Alter { file: u32 },
    /// It runs a file.
    Exec { file: u32 },
    /// It makes a process.
    Fork { child: u32 },
}

/// The process of an event, by its word.
pub fn pid_of(word: u32) -> u32
    ensures { result ≡ logs.pid_of word }
{
    100 + word % 16
}

/// What it does.
pub fn deed_of(word: u32) -> Deed
    ensures { result ≡ logs.deed_of word }
{
    let file = 1 + word / 64 % 32;
    let child = 100 + word / 64 % 16;
    match word / 16 % 4 {
        1 => Deed::Exec { file },
        3 => Deed::Fork { child },
        _ => Deed::Alter { file },
    }
}
