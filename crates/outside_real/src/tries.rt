//! Calls that a signal interrupts, which are tried again.
ghost use Rattle.std.specs.Prelude.{◌≡◌, ◌↔◌, [], IfOk, IsTrue};
ghost use Rattle.std.specs.Io.{ReadsAtMost, WritesAtMost};
ghost use Rattle.std.specs.Io.KnownBytes.{ReadConsumes, WriteAppends};
ghost use Rattle.std.specs.IoError.{error_kind};

use outside::Failed;
use std::io;
use std::io::{ErrorKind, Read, Write};

/// How often a call is tried while signals interrupt it. After this many tries it has failed.
pub const TRIES: u32 = 1_000;

/// Whether a signal interrupted the call, so that it did nothing.
pub fn is_interrupted(fault: &io::Error) -> bool
    ensures { IsTrue result ↔ (error_kind fault.now ≡ ErrorKind.Interrupted) }
{
    fault.kind() == ErrorKind::Interrupted
}

/// One read, tried again while signals interrupt it.
pub fn read_once<R: Read>(reader: &mut R, buf: &mut [u8]) -> Result<usize, Failed>
    ensures bound { ReadsAtMost result buf.new }
    ensures known { ReadConsumes (R.remaining reader.old) (R.remaining reader.new) result buf.new }
{
    for _ in 0..TRIES {
        match reader.read(buf) {
            Ok(count) => return Ok(count),
            Err(fault) => {
                if !is_interrupted(&fault) {
                    return Err(Failed);
                }
            }
        }
    }
    Err(Failed)
}

/// One write, tried again while signals interrupt it. A writer that takes nothing of a piece with bytes has failed, since
/// it would be asked for ever.
pub fn write_once<W: Write>(writer: &mut W, piece: &[u8]) -> Result<usize, Failed>
    ensures bound { WritesAtMost result piece.now }
    ensures some { IfOk result (λ n. n ≡ 0 → piece.now ≡ []) }
    ensures known { WriteAppends (W.contents writer.old) (W.contents writer.new) result piece.now }
{
    for _ in 0..TRIES {
        match writer.write(piece) {
            Ok(0) if !piece.is_empty() => return Err(Failed),
            Ok(count) => return Ok(count),
            Err(fault) => {
                if !is_interrupted(&fault) {
                    return Err(Failed);
                }
            }
        }
    }
    Err(Failed)
}
