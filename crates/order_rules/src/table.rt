//! What lines said of the processes of a node.
ghost use Rattle.std.specs.Prelude.{◌≡◌, ◌∷◌, ◌&&◌, ℕ, [], None, Some, not, is_some, option_map, IfOk, OnOk, if◌then◌else◌};
ghost use Rattle.order_rules.specs.Deeds as deeds;
ghost use Rattle.order_rules.specs.Deeds.{Passes, Calls, Stands, Names, Addresses, is_same, is_local, changed, acted, copy_of, at_exec, in_range, inherited, directory, directory_in, base_in, path_from, path_in, place_at, kept_path, opened_in, bound_in, of_event, listening_in, own_place_in, socket, bound_to, datagram_place, knocked, if_placed, is_connect, connects, is_silent, accepts_silently, kind_in, kind_at, met_at, target_by, inet_target, answered, is_near, name_of, or_else, stem_by, stem_from, own_name, answer_name, waited, left};
ghost use Rattle.order_rules.specs.Doors.{found_name, wait_name};
ghost use Rattle.name_text.specs.Addresses.{text_of};
ghost use Rattle.order_rules.specs.Addresses as addresses;
ghost use Rattle.order_rules.specs.Addresses.{inet_of, is_unix};
ghost use Rattle.order_rules.specs.Known.{nothing, fds_at, held_at, held_of, is_host_at, is_place_at, waits_at, with_mark, target_seen, Leaves, Keeps, Becomes, AddsHost, AddsHostOf, Binds, BindsPlace, Meets, NowWait, Hears, StandsFor};
ghost use Rattle.order_rules.specs.Kept.{ends_of};
ghost use Rattle.order_rules.specs.Rewrites.{name_at, called_at, owned_in};

use crate::address::{address_of, inet_key, inet_of, is_any, is_loopback, is_unix, place_of};
use crate::call::{Act, Asks, Call, SocketKind};
use crate::copies::owned_by;
use crate::doors::Doors;
use crate::fds::Fds;
use crate::held::{Held, Thing};
use crate::reading::copied;
use crate::target::{Target, name_of, unix_target};
use crate::under::{Opened, Under, is_event, met_at, stood};
use audit_lex::EventKey;
use flow_base::{Bytes, NoMemory};
use name_text::{address_key, address_text, join_path};
use order_lines::Own;
use std::alloc::Global;
use std::collections::{BTreeMap, BTreeSet};
use std::marker::Model;

/// The longest path that is kept.
const PATH: usize = 4_096;

/// What each process holds, the newest call, the hosts that sockets were bound to, and the connections that wait.
#[derive(Drop)]
pub struct Table {
    alloc: Global,
    processes: BTreeMap<u32, Fds>,
    under: Option<Under>,
    hosts: BTreeSet<Bytes>,
    doors: Doors,
}

impl Model for Table {
    ghost use Rattle.order_rules.specs.Known.{Known};

    ghost Value = { Known };

    ghost view = { λ a. record {
      processes = a.processes.entries;
      under = a.under;
      hosts = a.hosts.keys;
      doors = a.doors;
    } };
}

impl Table {
    /// Nothing was said.
    pub fn new(alloc: Global) -> Table
        ensures is { result ≡ nothing }
        ensures nothing { StandsFor result [] }
    {
        Table {
            alloc,
            processes: BTreeMap::new(alloc),
            under: None,
            hosts: BTreeSet::new(alloc),
            doors: Doors::new(alloc),
        }
    }

    /// Nothing that was said holds any longer.
    pub fn clear(&mut self)
        ensures { self.new ≡ nothing }
    {
        self.processes.clear();
        self.under = None;
        self.hosts.clear();
        self.doors.clear();
    }

    /// The time of a line has come.
    pub fn pass(&mut self, key: EventKey)
        ensures { Hears self.old self.new key Passes }
    {
        self.doors.pass(key.ms);
    }

    /// The record of a call was seen.
    pub fn hear_call(&mut self, key: EventKey, call: Call) -> Result<(), NoMemory>
        ensures { OnOk result (Hears self.old self.new key (Calls call)) }
    {
        self.act(call.pid, call.act)?;
        self.under = Some(Under {
            key,
            call,
            cwd: None,
            met: false,
        });
        Ok(())
    }

    /// A record has named a working directory.
    pub fn hear_cwd(&mut self, key: EventKey, cwd: Option<Bytes>)
        ensures { Hears self.old self.new key (Stands cwd) }
    {
        if let Some(under) = self.under.take() {
            self.under = Some(stood(key, cwd, under));
        }
    }

    /// A record has named a directory that a call may have opened, or something else.
    pub fn hear_name(&mut self, key: EventKey, name: Option<Bytes>) -> Result<(), NoMemory>
        ensures { OnOk result (Hears self.old self.new key (Names name)) }
    {
        let Some(opened) = self.opened(key) else {
            return Ok(());
        };
        let path = self.path_of(key, &name)?;
        self.set(opened.pid, opened.fd, directory(opened.stays, path))
    }

    /// A record has an address.
    pub fn hear_address(&mut self, key: EventKey, bytes: &[u8]) -> Result<(), NoMemory>
        ensures { OnOk result (Hears self.old self.new key (Addresses bytes.now)) }
    {
        self.meet(key, bytes)?;
        self.bind_at(key, bytes)?;
        self.note_address(key);
        Ok(())
    }

    // A record of an event has an address.
    fn note_address(&mut self, key: EventKey)
        ensures { self.new ≡ record self.old { under = option_map (met_at key) self.old.under } }
    {
        if let Some(under) = self.under.take() {
            self.under = Some(met_at(key, under));
        }
    }

    // A record has the address of a connection.
    fn meet(&mut self, key: EventKey, bytes: &[u8]) -> Result<(), NoMemory>
        ensures { OnOk result (Meets
            self.old self.new (of_event self.old.under key) key bytes.now) }
    {
        let target = self.knocked(key, bytes)?;
        let place = self.answered(key, bytes)?;
        self.wait_at(key, target)?;
        self.leave(key, bytes, place)
    }

    // A connect has come to a place.
    fn wait_at(&mut self, key: EventKey, target: Option<Target>) -> Result<(), NoMemory>
        ensures { OnOk result (NowWait self.old self.new (waited self.old.doors.clock
            (waits_at self.old.doors) key (option_map target_seen target))) }
    {
        match target {
            Some(target) => {
                let name = name_of(self.alloc, target.stem.as_slice(), key)?;
                self.doors.knock(target.place, name)
            }
            None => Ok(()),
        }
    }

    // A peer was accepted at a place.
    fn leave(&mut self, key: EventKey, bytes: &[u8], place: Option<Bytes>) -> Result<(), NoMemory>
        ensures { OnOk result (NowWait self.old self.new (left self.old.doors.clock
            (waits_at self.old.doors) key bytes.now place)) }
    {
        match place {
            Some(place) => {
                let own = self.own_name(key, &place, bytes)?;
                self.doors.leave(place, own)
            }
            None => Ok(()),
        }
    }

    // A record has the address that its event's call bound a socket to, if that binds one.
    fn bind_at(&mut self, key: EventKey, bytes: &[u8]) -> Result<(), NoMemory>
        ensures { OnOk result (Binds
            self.old self.new (bound_in (of_event self.old.under key)) bytes.now) }
    {
        match self.bound(key) {
            Some((pid, fd)) => self.bind(pid, fd, bytes),
            None => Ok(()),
        }
    }

    // A socket is bound to this address.
    fn bind(&mut self, pid: u32, fd: u32, bytes: &[u8]) -> Result<(), NoMemory>
        ensures { OnOk result (Binds self.old self.new (Some (pid, fd)) bytes.now) }
    {
        self.add_host_of(bytes)?;
        match place_of(self.alloc, bytes)? {
            Some(place) => self.bind_place(pid, fd, place),
            None => Ok(()),
        }
    }

    // A socket is bound to this place.
    fn bind_place(&mut self, pid: u32, fd: u32, place: Bytes) -> Result<(), NoMemory>
        ensures { OnOk result (BindsPlace self.old self.new pid fd place) }
    {
        let bound = self.bound_to(pid, fd, place.copy()?);
        self.doors.add_place(place)?;
        self.set(pid, fd, Some(bound))
    }

    // A socket was bound to the host of this address, if it has one.
    fn add_host_of(&mut self, bytes: &[u8]) -> Result<(), NoMemory>
        ensures { OnOk result (AddsHostOf self.old self.new (inet_of bytes.now)) }
    {
        match inet_of(bytes) {
            Some((host, _)) => self.add_host(host),
            None => Ok(()),
        }
    }

    /// The path of the directory that the names of an event's call are relative to, if it isn't the working directory.
    pub fn directory(&self, key: EventKey) -> Option<&[u8]>
        ensures { option_map (λ path. path.now) result
            ≡ directory_in (held_at self.now) (of_event self.now.under key) }
    {
        let under = self.under_of(key)?;
        match under.call.asks {
            Asks::At { fd } => self.path_at(under.call.pid, fd),
            _ => None,
        }
    }

    /// The address that the peer of an event's call has called, or calls in answer: the peer's host, which is that of these bytes, and the
    /// port of the call's own socket. None if that isn't so.
    pub fn called(&self, key: EventKey, bytes: &[u8]) -> Result<Option<Bytes>, NoMemory>
        ensures { IfOk result (λ made. made ≡ called_at (ends_of self.now)
            (of_event self.now.under key) bytes.now) }
    {
        let Some((host, port)) = inet_of(bytes) else {
            return Ok(None);
        };
        let free = self.is_free(port)?;
        let Some(own) = self.own_place(key, free) else {
            return Ok(None);
        };
        if !self.is_local(host)? || own.len() != 2 {
            return Ok(None);
        }
        let made = address_of(self.alloc, host, own)?;
        Ok(Some(made))
    }

    // Whether nobody is known to have bound a port.
    fn is_free(&self, port: &[u8]) -> Result<bool, NoMemory>
        ensures { IfOk result (λ free. free ≡ not (is_place_at self.now.doors port.now)) }
    {
        let port = Bytes::from_slice(self.alloc, port)?;
        Ok(!self.doors.is_place(&port))
    }

    // The place of the socket whose port a record has instead of that of the peer, whose port may be free.
    fn own_place(&self, key: EventKey, free: bool) -> Option<&[u8]>
        ensures { option_map (λ place. place.now) result
            ≡ own_place_in (held_at self.now) free (of_event self.now.under key) }
    {
        let under = self.under_of(key)?;
        let pid = under.call.pid;
        match under.call.asks {
            Asks::Accepts { fd, silent: _ } => self.place_at(pid, fd),
            Asks::Receives { fd } => self.datagram_place(pid, fd),
            Asks::Sends { fd } if free => self.datagram_place(pid, fd),
            _ => None,
        }
    }

    /// The name of the connection that an event's call begins or has accepted.
    pub fn name(&self, key: EventKey, bytes: &[u8]) -> Result<Option<Bytes>, NoMemory>
        ensures { IfOk result (λ made. made ≡ name_at (ends_of self.now)
            (of_event self.now.under key) key bytes.now) }
    {
        match self.knocked(key, bytes)? {
            Some(target) => {
                let name = self.knock_name(key, &target)?;
                Ok(Some(name))
            }
            None => self.answer_name(key, bytes),
        }
    }

    // The name of the connection of a connect.
    fn knock_name(&self, key: EventKey, target: &Target) -> Result<Bytes, NoMemory>
        ensures { IfOk result (λ name. Some name ≡ or_else (found_name self.now.doors.clock
            (waits_at self.now.doors target.now.place)) (Some (name_of target.now.stem key))) }
    {
        match self.doors.found(&target.place) {
            Some(name) => Bytes::from_slice(self.alloc, name),
            None => name_of(self.alloc, target.stem.as_slice(), key),
        }
    }

    // The name of the connection that was accepted.
    fn answer_name(&self, key: EventKey, bytes: &[u8]) -> Result<Option<Bytes>, NoMemory>
        ensures { IfOk result (λ made. made ≡ answer_name self.now.doors.clock
            (waits_at self.now.doors) key bytes.now (answered (held_at self.now) (is_host_at self.now)
            (of_event self.now.under key) bytes.now)) }
    {
        match self.answered(key, bytes)? {
            Some(place) => self.name_at(key, &place, bytes),
            None => Ok(None),
        }
    }

    // The name of a connection that was accepted at a place.
    fn name_at(&self, key: EventKey, place: &Bytes, bytes: &[u8]) -> Result<Option<Bytes>, NoMemory>
        ensures { IfOk result (λ made. made ≡ or_else
            (wait_name self.now.doors.clock (waits_at self.now.doors place.now)) (own_name key place.now bytes.now)) }
    {
        match self.doors.name(place) {
            Some(name) => {
                let name = Bytes::from_slice(self.alloc, name)?;
                Ok(Some(name))
            }
            None => self.own_name(key, place, bytes),
        }
    }

    // The name of a connection whose accept comes first.
    fn own_name(
        &self,
        key: EventKey,
        place: &Bytes,
        bytes: &[u8],
    ) -> Result<Option<Bytes>, NoMemory>
        ensures { IfOk result (λ made. made ≡ own_name key place.now bytes.now) }
    {
        match self.stem(place, bytes)? {
            Some(stem) => {
                let name = name_of(self.alloc, stem.as_slice(), key)?;
                Ok(Some(name))
            }
            None => Ok(None),
        }
    }

    // The address that this name begins with.
    fn stem(&self, place: &Bytes, bytes: &[u8]) -> Result<Option<Bytes>, NoMemory>
        ensures { IfOk result (λ stem. stem ≡ stem_by (is_unix bytes.now) place.now bytes.now) }
    {
        let is_port = place.as_slice().len() == 2;
        if is_unix(bytes) {
            if is_port {
                return Ok(None);
            }
            let stem = place.copy()?;
            return Ok(Some(stem));
        }
        match inet_of(bytes) {
            Some((host, _)) if is_port => {
                let stem = self.inet_stem(host, place.as_slice())?;
                Ok(Some(stem))
            }
            _ => Ok(None),
        }
    }

    // The address of family 1 that has the text of a host and a port.
    fn inet_stem(&self, host: &[u8], port: &[u8]) -> Result<Bytes, NoMemory>
        ensures { IfOk result
            (λ stem. stem ≡ 1 ∷ 0 ∷ text_of (addresses.inet_key host.now port.now)) }
    {
        let key = inet_key(self.alloc, host, port)?;
        let text = address_text(self.alloc, key.as_slice())?;
        let mut stem = Bytes::from_slice(self.alloc, &[1, 0])?;
        stem.append(text.as_slice())?;
        Ok(stem)
    }

    // What an event's connect goes to, if a socket is known to be bound there.
    fn knocked(&self, key: EventKey, bytes: &[u8]) -> Result<Option<Target>, NoMemory>
        ensures { IfOk result (λ target. option_map target_seen target
            ≡ knocked (held_at self.now) (is_host_at self.now) (is_place_at self.now.doors)
            (of_event self.now.under key) bytes.now) }
    {
        if !self.is_connect(key) {
            return Ok(None);
        }
        let target = self.target_of(bytes)?;
        Ok(self.if_placed(target))
    }

    // The target, if a socket is known to be bound there.
    fn if_placed(&self, target: Option<Target>) -> Option<Target>
        ensures { option_map target_seen result
            ≡ if_placed (is_place_at self.now.doors) (option_map target_seen target) }
    {
        match target {
            Some(target) if self.doors.is_place(&target.place) => Some(target),
            _ => None,
        }
    }

    /// Whether an event's call has accepted a peer whose address neither it nor a record of the event has named.
    pub fn is_silent(&self, key: EventKey) -> bool
        ensures { result ≡ is_silent (of_event self.now.under key) }
    {
        match self.under_of(key) {
            Some(under) => accepts_silently(under.call.asks) && !under.met,
            None => false,
        }
    }

    // Whether an event's call asks to be accepted.
    fn is_connect(&self, key: EventKey) -> bool
        ensures { result ≡ is_connect (held_at self.now) (of_event self.now.under key) }
    {
        match self.under_of(key) {
            Some(under) => self.connects(under.call.pid, under.call.asks),
            None => false,
        }
    }

    // Whether a call asks to be accepted, as one that sends datagrams doesn't.
    fn connects(&self, pid: u32, asks: Asks) -> bool
        ensures { result ≡ connects (held_at self.now) pid asks }
    {
        match asks {
            Asks::Connects { fd } => !is_datagrams(self.kind_at(pid, fd)),
            _ => false,
        }
    }

    // What a connect to an address goes to.
    fn target_of(&self, bytes: &[u8]) -> Result<Option<Target>, NoMemory>
        ensures { IfOk result (λ target. option_map target_seen target
            ≡ target_by (is_unix bytes.now) (is_host_at self.now) bytes.now) }
    {
        if is_unix(bytes) {
            return unix_target(address_key(self.alloc, bytes)?);
        }
        match inet_of(bytes) {
            Some((host, port)) => self.inet_target(host, port),
            None => Ok(None),
        }
    }

    // What a connect to a host and a port goes to.
    fn inet_target(&self, host: &[u8], port: &[u8]) -> Result<Option<Target>, NoMemory>
        ensures { IfOk result (λ target. option_map target_seen target
            ≡ inet_target (is_host_at self.now) (Some (host.now, port.now))) }
    {
        if !self.is_local(host)? {
            return Ok(None);
        }
        let place = Bytes::from_slice(self.alloc, port)?;
        let stem = self.inet_stem(host, port)?;
        Ok(Some(Target { place, stem }))
    }

    // The place at which a peer of this machine was accepted.
    fn answered(&self, key: EventKey, bytes: &[u8]) -> Result<Option<Bytes>, NoMemory>
        ensures { IfOk result (λ door. door ≡ answered (held_at self.now)
            (is_host_at self.now) (of_event self.now.under key) bytes.now) }
    {
        if !self.is_near(bytes)? {
            return Ok(None);
        }
        copied(self.alloc, self.listening(key))
    }

    // Whether a peer is of this machine.
    fn is_near(&self, bytes: &[u8]) -> Result<bool, NoMemory>
        ensures { IfOk result (λ near. near ≡ is_near (is_host_at self.now) bytes.now) }
    {
        if is_unix(bytes) {
            return Ok(true);
        }
        match inet_of(bytes) {
            Some((host, _)) => self.is_local(host),
            None => Ok(false),
        }
    }

    // Whether a host is this machine.
    fn is_local(&self, host: &[u8]) -> Result<bool, NoMemory>
        ensures { IfOk result (λ local. local ≡ is_local (is_host_at self.now) host.now) }
    {
        if is_loopback(host) {
            return Ok(true);
        }
        let host = Bytes::from_slice(self.alloc, host)?;
        Ok(self.hosts.contains(&host))
    }

    // The place of the listening socket that an event's call accepted a connection of.
    fn listening(&self, key: EventKey) -> Option<&[u8]>
        ensures { option_map (λ place. place.now) result
            ≡ listening_in (held_at self.now) (of_event self.now.under key) }
    {
        let under = self.under_of(key)?;
        match under.call.asks {
            Asks::Accepts { fd, silent: _ } => self.place_at(under.call.pid, fd),
            _ => None,
        }
    }

    // The place of what a descriptor holds.
    fn place_at(&self, pid: u32, fd: u32) -> Option<&[u8]>
        ensures { option_map (λ place. place.now) result ≡ place_at (held_at self.now pid fd) }
    {
        match self.get(pid, fd)? {
            (Thing::Socket { place, kind: _ }, _) if !is_any(place.as_slice()) => Some(
                place.as_slice(),
            ),
            _ => None,
        }
    }

    // The same, unless it is known to be a stream.
    fn datagram_place(&self, pid: u32, fd: u32) -> Option<&[u8]>
        ensures { option_map (λ place. place.now) result
            ≡ datagram_place (held_at self.now pid fd) }
    {
        if is_stream(self.kind_at(pid, fd)) {
            return None;
        }
        self.place_at(pid, fd)
    }

    // What the socket of a descriptor carries.
    fn kind_at(&self, pid: u32, fd: u32) -> SocketKind
        ensures { result ≡ kind_at (held_at self.now pid fd) }
    {
        match self.get(pid, fd) {
            Some((thing, _)) => kind_in(thing),
            None => SocketKind::Other,
        }
    }

    // The path of what a descriptor holds.
    fn path_at(&self, pid: u32, fd: u32) -> Option<&[u8]>
        ensures { option_map (λ path. path.now) result ≡ path_in (held_at self.now pid fd) }
    {
        match self.get(pid, fd)? {
            (Thing::Directory { path }, _) => Some(path.as_slice()),
            _ => None,
        }
    }

    // What a descriptor of a process names, and whether an exec leaves it open.
    fn get(&self, pid: u32, fd: u32) -> Option<(&Thing, bool)>
        ensures { option_map (λ p. with_mark p.1 p.0.now) result ≡ held_at self.now pid fd }
    {
        match self.processes.get(&pid) {
            Some(fds) => fds.get(fd),
            None => None,
        }
    }

    // The call that the lines of an event belong to.
    fn under_of(&self, key: EventKey) -> Option<&Under>
        ensures { option_map (λ u. u.now) result ≡ of_event self.now.under key }
    {
        match &self.under {
            Some(under) if is_event(key, under.key) => Some(under),
            _ => None,
        }
    }

    /// The descriptor that records of an event have named before that of its call.
    pub fn owned(&self, key: EventKey) -> Option<Own>
        ensures { result ≡ owned_in (of_event self.now.under key) }
    {
        match self.under_of(key) {
            Some(under) => owned_by(under.call.asks),
            None => None,
        }
    }

    /// Whether the newest call opened a descriptor.
    pub fn opens(&self) -> bool
        ensures { result ≡ is_some (opened_in self.now.under) }
    {
        match &self.under {
            Some(under) => matches!(under.call.act, Act::Opens { fd: _, stays: _ }),
            None => false,
        }
    }

    // The descriptor that an event's call opened.
    fn opened(&self, key: EventKey) -> Option<Opened>
        ensures { result ≡ opened_in (of_event self.now.under key) }
    {
        let under = self.under_of(key)?;
        match under.call.act {
            Act::Opens { fd, stays } => Some(Opened {
                pid: under.call.pid,
                fd,
                stays,
            }),
            _ => None,
        }
    }

    // The process of an event's call that binds a socket, and the socket's descriptor.
    fn bound(&self, key: EventKey) -> Option<(u32, u32)>
        ensures { result ≡ bound_in (of_event self.now.under key) }
    {
        let under = self.under_of(key)?;
        match under.call.asks {
            Asks::Binds { fd } => Some((under.call.pid, fd)),
            _ => None,
        }
    }

    // What the names of an event's call are relative to.
    fn base(&self, key: EventKey) -> Option<&[u8]>
        ensures { option_map (λ path. path.now) result
            ≡ base_in (held_at self.now) (of_event self.now.under key) }
    {
        let under = self.under_of(key)?;
        match under.call.asks {
            Asks::At { fd: directory } => self.path_at(under.call.pid, directory),
            _ => cwd_of(under),
        }
    }

    // The path of a name that an event's record has.
    fn path_of(&self, key: EventKey, name: &Option<Bytes>) -> Result<Option<Bytes>, NoMemory>
        ensures { IfOk result (λ path. path ≡ path_from
            (base_in (held_at self.now) (of_event self.now.under key)) name.now) }
    {
        match name {
            None => Ok(None),
            Some(name) => {
                let path = join_path(self.alloc, self.base(key), name.as_slice(), PATH + 1)?;
                Ok(kept_path(path))
            }
        }
    }

    // A process has done this.
    fn act(&mut self, pid: u32, act: Act) -> Result<(), NoMemory>
        ensures { OnOk result (Becomes self.old self.new (acted (held_at self.old) pid act)) }
    {
        match act {
            Act::Nothing => Ok(()),
            Act::Opens { fd, stays: _ } => self.set(pid, fd, None),
            Act::Makes { fd, stays, kind } => {
                let made = socket(Bytes::new(self.alloc), kind, stays);
                self.set(pid, fd, Some(made))
            }
            Act::Closes { fd } => self.set(pid, fd, None),
            Act::ClosesRange { first, last } => self.close_range(pid, first, last),
            Act::Copies { from, to, stays } => self.copy(pid, from, to, stays),
            Act::Begins { child } => self.begin(pid, child),
            Act::Runs => self.run(pid),
            Act::Ends => {
                self.end(pid);
                Ok(())
            }
        }
    }

    // The descriptors of a range are closed.
    fn close_range(&mut self, pid: u32, first: u32, last: u32) -> Result<(), NoMemory>
        ensures { OnOk result (Becomes self.old self.new (λ p n.
            if is_same pid p && in_range first last n then None else held_at self.old p n)) }
    {
        let mut fds = self.take(pid);
        fds.close_range(first, last);
        self.keep(pid, fds)
    }

    // A descriptor holds what another does.
    fn copy(&mut self, pid: u32, from: u32, to: u32, stays: bool) -> Result<(), NoMemory>
        ensures { OnOk result (Becomes self.old self.new (changed
            (held_at self.old) pid to (copy_of stays (held_at self.old pid from)))) }
    {
        let what = self.copy_of(pid, from, stays)?;
        self.set(pid, to, what)
    }

    // What a copy of a descriptor holds.
    fn copy_of(&self, pid: u32, fd: u32, stays: bool) -> Result<Option<Held>, NoMemory>
        ensures { IfOk result (λ made. made ≡ copy_of stays (held_at self.now pid fd)) }
    {
        match self.get(pid, fd) {
            None => Ok(None),
            Some((thing, _)) => {
                let thing = thing.copy()?;
                Ok(Some(Held { thing, stays }))
            }
        }
    }

    // A process begins that inherits what another holds.
    fn begin(&mut self, pid: u32, child: u32) -> Result<(), NoMemory>
        ensures { OnOk result (Becomes self.old self.new (λ p n. if is_same child p
            then inherited n (held_at self.old pid n) else held_at self.old p n)) }
    {
        let fds = self.inherited(pid)?;
        self.keep(child, fds)
    }

    // What a process that begins inherits of another.
    fn inherited(&self, pid: u32) -> Result<Fds, NoMemory>
        ensures { IfOk result (λ made.
            (n : ℕ) → held_of made n ≡ inherited n (held_at self.now pid n)) }
    {
        match self.processes.get(&pid) {
            Some(fds) => fds.inherit(),
            None => Ok(Fds::new(self.alloc)),
        }
    }

    // A process runs another program.
    fn run(&mut self, pid: u32) -> Result<(), NoMemory>
        ensures { OnOk result (Becomes self.old self.new (λ p n.
            if is_same pid p then at_exec (held_at self.old p n) else held_at self.old p n)) }
    {
        let mut fds = self.take(pid);
        fds.exec();
        self.keep(pid, fds)
    }

    // A process has ended.
    fn end(&mut self, pid: u32)
        ensures { Becomes self.old self.new (λ p n.
            if is_same pid p then None else held_at self.old p n) }
    {
        let _ = self.processes.remove(&pid);
    }

    // What a descriptor holds once its socket is bound to this place.
    fn bound_to(&self, pid: u32, fd: u32, place: Bytes) -> Held
        ensures { result ≡ bound_to place (held_at self.now pid fd) }
    {
        match self.get(pid, fd) {
            Some((thing, stays)) => socket(place, kind_in(thing), stays),
            None => socket(place, SocketKind::Other, true),
        }
    }

    // A socket was bound to a host.
    fn add_host(&mut self, host: &[u8]) -> Result<(), NoMemory>
        ensures { OnOk result (AddsHost self.old self.new host.now) }
    {
        if is_any(host) {
            return Ok(());
        }
        let host = Bytes::from_slice(self.alloc, host)?;
        self.hosts.insert(host)?;
        Ok(())
    }

    // A descriptor holds this from now on.
    fn set(&mut self, pid: u32, fd: u32, held: Option<Held>) -> Result<(), NoMemory>
        ensures { OnOk result (Becomes self.old self.new (changed (held_at self.old) pid fd held)) }
    {
        let mut fds = self.take(pid);
        fds.set(fd, held)?;
        self.keep(pid, fds)
    }

    // What is kept of a process, which is taken out.
    fn take(&mut self, pid: u32) -> Fds
        ensures here { result ≡ fds_at self.old pid }
        ensures others { Leaves self.old self.new pid }
    {
        match self.processes.remove(&pid) {
            Some(fds) => fds,
            None => Fds::new(self.alloc),
        }
    }

    // What is kept of a process is put back, unless it is nothing.
    fn keep(&mut self, pid: u32, fds: Fds) -> Result<(), NoMemory>
        ensures { OnOk result (Keeps self.old self.new pid fds) }
    {
        if fds.is_empty() {
            let _ = self.processes.remove(&pid);
            return Ok(());
        }
        self.processes.insert(pid, fds)?;
        Ok(())
    }
}

// The working directory that records of a call's event named.
fn cwd_of(under: &Under) -> Option<&[u8]>
    ensures { option_map (λ path. path.now) result ≡ under.now.cwd }
{
    match &under.cwd {
        Some(cwd) => Some(cwd.as_slice()),
        None => None,
    }
}

// A socket of this place and kind.
fn socket(place: Bytes, kind: SocketKind, stays: bool) -> Held
    ensures { result ≡ socket place kind stays }
{
    Held {
        thing: Thing::Socket { place, kind },
        stays,
    }
}

// What a socket carries.
fn kind_in(thing: &Thing) -> SocketKind
    ensures { result ≡ kind_in thing.now }
{
    match thing {
        Thing::Socket { place: _, kind } => *kind,
        Thing::Directory { path: _ } => SocketKind::Other,
    }
}

fn is_stream(kind: SocketKind) -> bool
    ensures { result ≡ deeds.is_stream kind }
{
    matches!(kind, SocketKind::Stream)
}

fn is_datagrams(kind: SocketKind) -> bool
    ensures { result ≡ deeds.is_datagrams kind }
{
    matches!(kind, SocketKind::Datagrams)
}

// Whether a call accepts a peer for whose address it doesn't ask.
fn accepts_silently(asks: Asks) -> bool
    ensures { result ≡ accepts_silently asks }
{
    match asks {
        Asks::Accepts { fd: _, silent } => silent,
        _ => false,
    }
}

// A directory of this path, if it is known.
fn directory(stays: bool, path: Option<Bytes>) -> Option<Held>
    ensures { result ≡ directory stays path }
{
    match path {
        Some(path) => Some(Held {
            thing: Thing::Directory { path },
            stays,
        }),
        None => None,
    }
}

// An absolute path that isn't too long.
fn kept_path(path: Bytes) -> Option<Bytes>
    ensures { result ≡ kept_path path }
{
    let text = path.as_slice();
    if text.first() == Some(&b'/') && text.len() <= PATH {
        Some(path)
    } else {
        None
    }
}
