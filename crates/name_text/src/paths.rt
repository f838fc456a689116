//! Paths as a call names them, joined with the working directory that it was made in.
//!
//! A path is read as the parts between its slashes. Empty parts and `.` lead nowhere and go out, and a `..` goes out
//! together with the name before it. A `..` without one goes out of an absolute path, since nothing is above its
//! root, and stays in a relative one.
ghost use Rattle.std.specs.Prelude.{◌≡◌, true, ℕ, List, ◌++◌, ◌∷◌, [], take, IfOk, OnOk, map};
ghost use Rattle.std.specs.List.{slice_split};
ghost use Rattle.std.specs.Option.{option_copied};
ghost use Rattle.name_text.specs.Paths as paths;
ghost use Rattle.name_text.specs.Paths.{Gains, is_slash, joined, path_of, tidied};
ghost use Rattle.name_text.specs.PlainPaths.{is_plain, next_begun, plain_from};

use crate::pieces::put_joined;
use flow_base::{Bytes, NoMemory};
use std::alloc::{AllocError, Global};

/// The path of a name in a working directory, as far as its first `limit` bytes. An absolute name, and one without a
/// working directory, stands alone.
pub fn join_path(
    alloc: Global,
    cwd: Option<&[u8]>,
    name: &[u8],
    limit: usize,
) -> Result<Bytes, NoMemory>
    ensures { IfOk result (λ path. path ≡ joined (option_copied cwd.entry) name.now limit) }
{
    match cwd {
        Some(cwd) if !is_absolute(name) => tidy_behind(alloc, cwd, name, limit),
        _ => tidy(alloc, name, limit),
    }
}

// The tidied path, as far as its first bytes. Most paths are tidy as they are.
#[tactic(auto, using(crate::proofs::PlainLemmas::plain_stays))]
fn tidy(alloc: Global, path: &[u8], limit: usize) -> Result<Bytes, NoMemory>
    ensures { IfOk result (λ made. made ≡ take limit (tidied path.now)) }
{
    if is_plain(path) {
        cut(alloc, path, limit)
    } else {
        resolve(alloc, path, limit)
    }
}

// The same of a path that is given as the text before a slash and the text after it.
#[tactic(auto, using(crate::proofs::PlainLemmas::plain_behind))]
fn tidy_behind(alloc: Global, front: &[u8], name: &[u8], limit: usize) -> Result<Bytes, NoMemory>
    ensures { IfOk result (λ made. made ≡ take limit (tidied (front.now ++ 47 ∷ name.now))) }
{
    if is_plain(front) && has_plain_parts(name) {
        cut_behind(alloc, front, name, limit)
    } else {
        resolve_behind(alloc, front, name, limit)
    }
}

// Whether no part of a path would go out: the path is tidy as it is.
fn is_plain(path: &[u8]) -> bool
    ensures { result ≡ is_plain path.now }
{
    match path {
        [b'/', rest @ ..] => has_plain_parts(rest),
        _ => has_plain_parts(path),
    }
}

// How a part has begun: with nothing, with one dot, with two dots, or with anything else, so that it is a name.
const EMPTY: u8 = 0;

const UP: u8 = 2;

const NAME: u8 = 3;

// Whether each part of a text is a name.
fn has_plain_parts(text: &[u8]) -> bool
    ensures { result ≡ plain_from 0 text.now }
{
    let mut begun = EMPTY;
    for byte in text {
        if *byte != b'/' {
            begun = next_begun(begun, *byte);
        } else if begun == NAME {
            begun = EMPTY;
        } else {
            return false;
        }
    }
    begun == NAME
}

// How a part has begun with one byte more.
fn next_begun(begun: u8, byte: u8) -> u8
    ensures { result ≡ next_begun begun byte }
{
    if byte == b'.' && begun < UP {
        begun + 1
    } else {
        NAME
    }
}

// The path as far as its first bytes.
fn cut(alloc: Global, path: &[u8], limit: usize) -> Result<Bytes, NoMemory>
    ensures { IfOk result (λ made. made ≡ take limit path.now) }
{
    Ok(Bytes::from_slice(alloc, &path[..path.len().min(limit)])?)
}

// The same of a path that is given as the text before a slash and the text after it.
fn cut_behind(alloc: Global, front: &[u8], name: &[u8], limit: usize) -> Result<Bytes, NoMemory>
    ensures { IfOk result (λ made. made ≡ take limit (front.now ++ 47 ∷ name.now)) }
{
    let most = front.len().saturating_add(name.len()).saturating_add(1);
    let mut path = Vec::with_capacity(alloc, most)?;
    path.extend_from_slice(front)?;
    path.push(b'/')?;
    path.extend_from_slice(name)?;
    path.truncate(limit);
    Ok(Bytes::from_vec(path))
}

// The tidied path, as far as its first bytes, of any path.
fn resolve(alloc: Global, path: &[u8], limit: usize) -> Result<Bytes, NoMemory>
    ensures { IfOk result (λ made. made ≡ take limit (tidied path.now)) }
{
    let absolute = is_absolute(path);
    let mut parts = Vec::new(alloc);
    put_parts(&mut parts, path, absolute)?;
    let most = path.len().saturating_add(1);
    cut_path(alloc, parts.as_slice(), absolute, most, limit)
}

// The same of a path that is given as the text before a slash and the text after it.
fn resolve_behind(alloc: Global, front: &[u8], name: &[u8], limit: usize) -> Result<Bytes, NoMemory>
    ensures { IfOk result (λ made. made ≡ take limit (tidied (front.now ++ 47 ∷ name.now))) }
{
    let absolute = is_root_in_front(front);
    let mut parts = Vec::new(alloc);
    put_parts(&mut parts, front, absolute)?;
    put_parts(&mut parts, name, absolute)?;
    let most = front.len().saturating_add(name.len()).saturating_add(1);
    cut_path(alloc, parts.as_slice(), absolute, most, limit)
}

// Whether a path is absolute that has this before a slash.
fn is_root_in_front(front: &[u8]) -> bool
    ensures { (rest : List ℕ) → result ≡ paths.is_absolute (front.now ++ 47 ∷ rest) }
{
    front.is_empty() || is_absolute(front)
}

// Whether a path begins with a slash.
fn is_absolute(path: &[u8]) -> bool
    ensures { result ≡ paths.is_absolute path.now }
{
    path.first() == Some(&b'/')
}

// Appends the parts of a text to the kept parts.
fn put_parts<'a>(
    parts: &mut Vec<&'a [u8]>,
    text: &'a [u8],
    absolute: bool,
) -> Result<(), AllocError>
    ensures { OnOk result (Gains absolute (map (λ p. p.now) parts.old.items)
        (map (λ p. p.now) parts.new.items) (slice_split is_slash text.now)) }
{
    for part in text.split(|byte| *byte == b'/') {
        put_part(parts, part, absolute)?;
    }
    Ok(())
}

// Appends one part to the kept parts.
fn put_part<'a>(parts: &mut Vec<&'a [u8]>, part: &'a [u8], absolute: bool) -> Result<(), AllocError>
    ensures { OnOk result (Gains absolute (map (λ p. p.now) parts.old.items)
        (map (λ p. p.now) parts.new.items) (part.now ∷ [])) }
{
    if is_up(part) {
        put_up(parts, part, absolute)?;
    } else if is_named(part) {
        parts.push(part)?;
    }
    Ok(())
}

// Whether a part leads anywhere.
fn is_named(part: &[u8]) -> bool
    ensures { result ≡ paths.is_named part.now }
{
    !part.is_empty() && part != b".".as_slice()
}

// Appends a `..` to the kept parts.
fn put_up<'a>(parts: &mut Vec<&'a [u8]>, up: &'a [u8], absolute: bool) -> Result<(), AllocError>
    requires { paths.is_up up.now ≡ true }
    ensures { OnOk result (Gains absolute (map (λ p. p.now) parts.old.items)
        (map (λ p. p.now) parts.new.items) (up.now ∷ [])) }
{
    match parts.last() {
        Some(last) if !is_up(last) => {
            parts.pop();
        }
        None if absolute => {}
        _ => parts.push(up)?,
    }
    Ok(())
}

// Whether a part leads up.
fn is_up(part: &[u8]) -> bool
    ensures { result ≡ paths.is_up part.now }
{
    part == b"..".as_slice()
}

// The text of the parts of a path, as far as its first bytes. If it has at most `most` bytes, memory is taken once.
fn cut_path(
    alloc: Global,
    parts: &[&[u8]],
    absolute: bool,
    most: usize,
    limit: usize,
) -> Result<Bytes, NoMemory>
    ensures { IfOk result (λ path. path
        ≡ take limit (path_of absolute (map (λ p. p.now) parts.now))) }
{
    let mut path = Vec::with_capacity(alloc, most)?;
    if absolute {
        path.push(b'/')?;
    } else if parts.is_empty() {
        path.push(b'.')?;
    }
    put_joined(&mut path, b'/', parts)?;
    path.truncate(limit);
    Ok(Bytes::from_vec(path))
}
