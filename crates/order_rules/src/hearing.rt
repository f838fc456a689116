//! What becomes of a line, and what is known after it.
ghost use Rattle.std.specs.Prelude.{◌≡◌, ◌&&◌, not, is_none, is_some, List, IfOk, OnOk, option_map, codes};
ghost use Rattle.std.specs.Option.{option_copied};
ghost use Rattle.order_rules.specs.Deeds.{Said, Calls, Addresses, of_event, opened_in};
ghost use Rattle.order_rules.specs.Quiet.{is_path};
ghost use Rattle.order_lines.specs.Own.{own_in};
ghost use Rattle.order_rules.specs.Copies.{rewrite_call};
ghost use Rattle.order_rules.specs.Known.{Hears, HearsIt, StandsFor};
ghost use Rattle.order_rules.specs.Kept.{ends_of};
ghost use Rattle.order_rules.specs.Lines.{call_in, bytes_in, path_said, deed_of_kind};
ghost use Rattle.order_rules.specs.Notes.{IsNoted};
ghost use Rattle.order_rules.specs.Rewrites.{class_in, said_after, rewritten, owned_in, rewrite_kind, at_directory, at_address, at_end, address_at, lacks_peer};

use crate::copies::{owning, rewrite_call};
use crate::note::Note;
use crate::quiet::{is_path, is_quiet};
use crate::reading::{bytes_in, call_in, directory_name, is_path_opened, text_in};
use crate::rewrite::{rewrite_line, written_text};
use crate::settings::Settings;
use crate::table::Table;
use audit_lex::{EventKey, Field, Kind, Lexed, UsedLine, lex};
use flow_base::{Bytes, NoMemory};
use order_lines::own_in;
use order_text::Rewrite;
use std::alloc::Global;

/// The longest line that is read.
const LINE: usize = 65_536;

/// An address of family 1 without a name.
const BLANK_PEER: [u8; 2] = [1, 0];

impl Table {
    /// What becomes of the next line, of which something may have been noted. After that what it says is known.
    pub fn see(
        &mut self,
        alloc: Global,
        settings: Settings,
        line: &[u8],
        note: Option<Note>,
    ) -> Result<Option<Rewrite>, NoMemory>
        requires is { IsNoted note line.now }
        ensures rewrites { IfOk result (λ made. (said : List Said) → StandsFor self.old said
            → made ≡ rewritten settings said line.now) }
        ensures stands { OnOk result ((said : List Said) → StandsFor self.old said
            → StandsFor self.new (said_after line.now (class_in line.now) said)) }
    {
        match note {
            Some(note) => self.see_noted(alloc, settings, line, note),
            None => self.see_unread(alloc, settings, line),
        }
    }

    // What becomes of the record of a call, of which this was noted.
    fn see_noted(
        &mut self,
        alloc: Global,
        settings: Settings,
        line: &[u8],
        note: Note,
    ) -> Result<Option<Rewrite>, NoMemory>
        ensures rewrites { IfOk result (λ made. made ≡ rewrite_call settings.own
            (owned_in (of_event self.old.under note.key)) line.now note.call) }
        ensures hears { OnOk result
            (HearsIt self.old self.new note.key (option_map Calls note.call)) }
    {
        let owned = self.owned(note.key);
        let made = rewrite_call(alloc, settings.own, owned, line, note.call)?;
        self.hear_note(note)?;
        Ok(made)
    }

    // The record of a call was seen, with what was noted of it.
    fn hear_note(&mut self, note: Note) -> Result<(), NoMemory>
        ensures { OnOk result
            (HearsIt self.old self.new note.key (option_map Calls note.call)) }
    {
        match note.call {
            Some(call) => self.hear_call(note.key, call),
            None => Ok(()),
        }
    }

    // What becomes of the next line, of which nothing was noted.
    fn see_unread(
        &mut self,
        alloc: Global,
        settings: Settings,
        line: &[u8],
    ) -> Result<Option<Rewrite>, NoMemory>
        ensures rewrites { IfOk result (λ made. (said : List Said) → StandsFor self.old said
            → made ≡ rewritten settings said line.now) }
        ensures stands { OnOk result ((said : List Said) → StandsFor self.old said
            → StandsFor self.new (said_after line.now (class_in line.now) said)) }
    {
        if is_quiet(line) || self.passes(line) {
            return Ok(None);
        }
        match lex(line, LINE) {
            Lexed::Used(used) => self.see_used(alloc, settings, &used),
            _ => Ok(None),
        }
    }

    // Whether a line is the record of a path, which says nothing unless the newest call opened what it names, or it names a descriptor.
    fn passes(&self, line: &[u8]) -> bool
        ensures { result ≡ (is_path line.now
            && (not (is_some (opened_in self.now.under)) && is_none (own_in line.now))) }
    {
        is_path(line) && !self.opens() && own_in(line).is_none()
    }

    // What becomes of a used line.
    fn see_used(
        &mut self,
        alloc: Global,
        settings: Settings,
        used: &UsedLine<'_>,
    ) -> Result<Option<Rewrite>, NoMemory>
        ensures rewrites { IfOk result (λ made. made ≡ rewrite_kind settings (ends_of self.old)
            (of_event self.old.under used.now.key) used.now.key
            used.now.line.now used.now.kind) }
        ensures hears { OnOk result (HearsIt self.old self.new used.now.key
            (deed_of_kind used.now.line.now used.now.kind)) }
    {
        let made = self.rewrite(alloc, settings, used)?;
        self.hear(alloc, used)?;
        Ok(made)
    }

    // What becomes of a used line by what is known.
    fn rewrite(
        &self,
        alloc: Global,
        settings: Settings,
        used: &UsedLine<'_>,
    ) -> Result<Option<Rewrite>, NoMemory>
        ensures { IfOk result (λ made. made ≡ rewrite_kind settings (ends_of self.now)
            (of_event self.now.under used.now.key) used.now.key
            used.now.line.now used.now.kind) }
    {
        match used.kind {
            Kind::Syscall => {
                let owned = self.owned(used.key);
                rewrite_call(alloc, settings.own, owned, used.line, call_in(used))
            }
            Kind::Cwd if settings.names => at_directory(alloc, used.line, self.directory(used.key)),
            Kind::Sockaddr if settings.join => self.at_end(alloc, settings.apart, used),
            _ => Ok(None),
        }
    }

    // What becomes of the record of an address.
    fn at_end(
        &self,
        alloc: Global,
        apart: bool,
        used: &UsedLine<'_>,
    ) -> Result<Option<Rewrite>, NoMemory>
        ensures { IfOk result (λ made. made ≡ at_end apart (ends_of self.now)
            (of_event self.now.under used.now.key) used.now.key used.now.line.now
            (bytes_in used.now.line.now (codes "saddr"))) }
    {
        match bytes_in(alloc, used, Field::Saddr)? {
            Some(bytes) => {
                let address = self.address(apart, used.key, bytes.as_slice())?;
                at_address(alloc, used.line, address)
            }
            None => Ok(None),
        }
    }

    // The address of a connection.
    fn address(&self, apart: bool, key: EventKey, bytes: &[u8]) -> Result<Option<Bytes>, NoMemory>
        ensures { IfOk result (λ made. made ≡ address_at apart (ends_of self.now)
            (of_event self.now.under key) key bytes.now) }
    {
        if !apart {
            return self.called(key, bytes);
        }
        match self.name(key, bytes)? {
            Some(name) => Ok(Some(name)),
            None => self.called(key, bytes),
        }
    }

    /// Whether an event's call has accepted a peer whose address no record has, by a connection that has a name.
    pub fn lacks_peer(&self, key: EventKey) -> Result<bool, NoMemory>
        ensures { IfOk result (λ lacks. lacks
            ≡ lacks_peer (ends_of self.now) (of_event self.now.under key) key) }
    {
        if !self.is_silent(key) {
            return Ok(false);
        }
        let name = self.name(key, &BLANK_PEER)?;
        Ok(name.is_some())
    }

    // What a used line says is known.
    fn hear(&mut self, alloc: Global, used: &UsedLine<'_>) -> Result<(), NoMemory>
        ensures { OnOk result (HearsIt self.old self.new used.now.key
            (deed_of_kind used.now.line.now used.now.kind)) }
    {
        match used.kind {
            Kind::Syscall => self.hear_record(used),
            Kind::Cwd => {
                let cwd = text_in(alloc, used, Field::Cwd)?;
                self.hear_cwd(used.key, cwd);
                Ok(())
            }
            Kind::Path if is_path_opened(used) => self.hear_path(alloc, used),
            Kind::Sockaddr => self.hear_saddr(alloc, used),
            _ => Ok(()),
        }
    }

    // The record of a path was seen that was opened.
    fn hear_path(&mut self, alloc: Global, used: &UsedLine<'_>) -> Result<(), NoMemory>
        ensures { OnOk result (Hears self.old self.new used.now.key
            (path_said (own_in used.now.line.now) used.now.line.now)) }
    {
        match own_in(used.line) {
            Some(own) => self.hear_call(used.key, owning(own)),
            None => {
                let name = directory_name(alloc, used)?;
                self.hear_name(used.key, name)
            }
        }
    }

    // The record of a call was seen.
    fn hear_record(&mut self, used: &UsedLine<'_>) -> Result<(), NoMemory>
        ensures { OnOk result (HearsIt self.old self.new used.now.key
            (option_map Calls (call_in used.now.line.now))) }
    {
        match call_in(used) {
            Some(call) => self.hear_call(used.key, call),
            None => Ok(()),
        }
    }

    // The record of an address was seen.
    fn hear_saddr(&mut self, alloc: Global, used: &UsedLine<'_>) -> Result<(), NoMemory>
        ensures { OnOk result (HearsIt self.old self.new used.now.key
            (option_map Addresses (bytes_in used.now.line.now (codes "saddr")))) }
    {
        match bytes_in(alloc, used, Field::Saddr)? {
            Some(bytes) => self.hear_address(used.key, bytes.as_slice()),
            None => Ok(()),
        }
    }
}

// The record of a working directory with this one.
fn at_directory(
    alloc: Global,
    line: &[u8],
    path: Option<&[u8]>,
) -> Result<Option<Rewrite>, NoMemory>
    ensures { IfOk result (λ made. made ≡ at_directory line.now (option_copied path.entry)) }
{
    match path {
        Some(path) => {
            let value = written_text(alloc, path)?;
            rewrite_line(alloc, b"cwd", value.as_slice(), line)
        }
        None => Ok(None),
    }
}

// The record of an address with this one.
fn at_address(
    alloc: Global,
    line: &[u8],
    address: Option<Bytes>,
) -> Result<Option<Rewrite>, NoMemory>
    ensures { IfOk result (λ made. made ≡ at_address line.now address) }
{
    match address {
        Some(address) => {
            let value = hex::encode_upper(alloc, address.as_slice())?;
            rewrite_line(alloc, b"saddr", value.as_bytes(), line)
        }
        None => Ok(None),
    }
}
