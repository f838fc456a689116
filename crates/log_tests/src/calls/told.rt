//! Acts written as text.
use call_acts::{Act, FileRef, Opens, Thing};
use flow_base::{Bytes, How, NoMemory};
use std::alloc::Global;

/// Acts as text, each ended by a semicolon.
pub fn told(alloc: Global, acts: &[Act]) -> Result<String, NoMemory> {
    let mut told = String::new(alloc);
    for act in acts {
        let text = act_text(alloc, act)?;
        told.push_str(text.as_str())?;
    }
    Ok(told)
}

fn text(bytes: &[u8]) -> &str {
    match std::str::from_utf8(bytes) {
        Ok(text) => text,
        Err(_) => "?",
    }
}

fn text_or_dash(bytes: &Option<Bytes>) -> &str {
    match bytes {
        Some(bytes) => text(bytes.as_slice()),
        None => "-",
    }
}

fn marked(cloexec: bool) -> &'static str {
    if cloexec { " cloexec" } else { "" }
}

fn file_text(alloc: Global, file: &FileRef) -> Result<String, NoMemory> {
    let path = text_or_dash(&file.path);
    match file.file {
        Some(id) => {
            let ino = id.ino;
            Ok(format!(in alloc; "{ino} {path}")?)
        }
        None => Ok(format!(in alloc; "- {path}")?),
    }
}

fn thing_text(alloc: Global, thing: &Thing) -> Result<String, NoMemory> {
    match thing {
        Thing::Fd(fd) => Ok(format!(in alloc; "fd {fd}")?),
        Thing::File(file) => {
            let file = file_text(alloc, file)?;
            Ok(format!(in alloc; "file {file}")?)
        }
        Thing::Address(bytes) => {
            let bytes = text(bytes.as_slice());
            Ok(format!(in alloc; "address {bytes}")?)
        }
    }
}

fn opened_text(alloc: Global, what: &Opens) -> Result<String, NoMemory> {
    match what {
        Opens::File(file) => {
            let file = file_text(alloc, file)?;
            Ok(format!(in alloc; "file {file}")?)
        }
        Opens::Socket { address, listener } => {
            let address = text_or_dash(address);
            match listener {
                Some(listener) => Ok(format!(in alloc; "socket {address} {listener}")?),
                None => Ok(format!(in alloc; "socket {address} -")?),
            }
        }
    }
}

fn how_text(how: How) -> &'static str {
    match how {
        How::Fork => "fork",
        How::Exec => "exec",
        How::Read => "read",
        How::Write => "write",
        How::Make => "make",
        How::Alter => "alter",
    }
}

fn act_text(alloc: Global, act: &Act) -> Result<String, NoMemory> {
    match act {
        Act::See { pid, ppid, exe } => {
            let exe = text_or_dash(exe);
            Ok(format!(in alloc; "see {pid} {ppid} {exe}; ")?)
        }
        Act::Fork { pid, child } => Ok(format!(in alloc; "{pid} fork {child}; ")?),
        Act::End { pid } => Ok(format!(in alloc; "{pid} end; ")?),
        Act::Exec { pid } => Ok(format!(in alloc; "{pid} exec; ")?),
        Act::Set {
            pid,
            fd,
            what,
            cloexec,
        } => {
            let what = opened_text(alloc, what)?;
            let mark = marked(*cloexec);
            Ok(format!(in alloc; "{pid} set {fd} {what}{mark}; ")?)
        }
        Act::SetBoth {
            pid,
            first,
            second,
            cloexec,
        } => {
            let mark = marked(*cloexec);
            Ok(format!(in alloc; "{pid} pair {first} {second}{mark}; ")?)
        }
        Act::Copy {
            pid,
            from,
            to,
            cloexec,
        } => {
            let mark = marked(*cloexec);
            Ok(format!(in alloc; "{pid} copy {from} {to}{mark}; ")?)
        }
        Act::Close { pid, fd } => Ok(format!(in alloc; "{pid} close {fd}; ")?),
        Act::Mark { pid, fd, cloexec } => {
            let mark = marked(*cloexec);
            Ok(format!(in alloc; "{pid} mark {fd}{mark}; ")?)
        }
        Act::Address { pid, fd, bytes } => {
            let bytes = text(bytes.as_slice());
            Ok(format!(in alloc; "{pid} address {fd} {bytes}; ")?)
        }
        Act::Birth { file } => {
            let file = file_text(alloc, file)?;
            Ok(format!(in alloc; "birth {file}; ")?)
        }
        Act::Move {
            pid,
            inward,
            how,
            what,
        } => {
            let way = if *inward { "in" } else { "out" };
            let how = how_text(*how);
            let what = thing_text(alloc, what)?;
            Ok(format!(in alloc; "{pid} {way} {how} {what}; ")?)
        }
    }
}
