//! Bodies of one kind in place of those of any other, whose text they keep: the next text uses its memory.
ghost use Rattle.std.specs.Prelude.{◌≡◌};
ghost use Rattle.audit_record.specs.Reading.{IsCall, IsCwd, IsPath};

use crate::types::{Body, NameKind, PathItem, Syscall};
use flow_base::Bytes;

/// Makes this the body of a call.
pub fn become_call(body: &mut Body)
    ensures { IsCall body.new }
{
    match body {
        Body::Syscall(_) => {}
        _ => *body = Body::Syscall(any_call(text_of(body))),
    }
}

/// Makes this the body of a path.
pub fn become_path(body: &mut Body)
    ensures { IsPath body.new }
{
    match body {
        Body::Path(_) => {}
        _ => *body = Body::Path(any_path(text_of(body))),
    }
}

/// Makes this the body of a working directory.
pub fn become_cwd(body: &mut Body)
    ensures { IsCwd body.new }
{
    match body {
        Body::Cwd(_) => {}
        _ => *body = Body::Cwd(text_of(body)),
    }
}

// A call that says nothing yet, with this text.
fn any_call(exe: Option<Bytes>) -> Syscall {
    Syscall {
        arch: 0,
        number: 0,
        success: None,
        exit: None,
        a0: 0,
        a1: 0,
        a2: 0,
        a3: 0,
        ppid: 0,
        pid: 0,
        exe,
    }
}

// A path that says nothing yet, with this text.
fn any_path(name: Option<Bytes>) -> PathItem {
    PathItem {
        item: 0,
        name,
        file: None,
        kind: NameKind::Normal,
    }
}

// Takes the text out of a body that has one.
fn text_of(body: &mut Body) -> Option<Bytes> {
    match body {
        Body::Syscall(call) => call.exe.take(),
        Body::Path(path) => path.name.take(),
        Body::Cwd(text) => text.take(),
        Body::Sockaddr(bytes) => Some(bytes.take()),
        Body::FdPair { .. } | Body::Mmap { .. } | Body::Proctitle | Body::Eoe => None,
    }
}
