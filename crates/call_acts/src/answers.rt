//! What a call answered, and what its arguments say.
ghost use Rattle.std.specs.Prelude.{◌≡◌};
ghost use Rattle.call_acts.specs.Answers.{is_ok, moved, answered, goes_on, fd, has};

use audit_record::Syscall;

// The answer of a connect that goes on by itself.
const IN_PROGRESS: i64 = -115;

/// Whether the call succeeded. If its record doesn't say, it didn't.
pub fn is_ok(call: &Syscall) -> bool
    ensures { result ≡ is_ok call.now }
{
    matches!(call.success, Some(true))
}

/// Whether the call succeeded and moved at least one byte.
pub fn moved(call: &Syscall) -> bool
    ensures { result ≡ moved call.now }
{
    match call.exit {
        Some(exit) => is_ok(call) && exit > 0,
        None => false,
    }
}

/// The number of 32 bits that a call which succeeded answered: a descriptor or a pid.
pub fn answered(call: &Syscall) -> Option<u32>
    ensures { result ≡ answered call.now }
{
    match call.exit {
        Some(exit) if is_ok(call) && exit >= 0 && exit < 1 << 32 => Some(exit as u32),
        _ => None,
    }
}

/// Whether the call answered that it goes on by itself.
pub fn goes_on(call: &Syscall) -> bool
    ensures { result ≡ goes_on call.now.exit }
{
    call.exit == Some(IN_PROGRESS)
}

/// The descriptor that an argument is: the kernel looks at its low 32 bits alone.
pub fn fd(argument: u64) -> u32
    ensures { result ≡ fd argument }
{
    (argument & 0xffff_ffff) as u32
}

/// Whether an argument has a flag.
pub fn has(argument: u64, flag: u64) -> bool
    ensures { result ≡ has argument flag }
{
    argument & flag != 0
}
