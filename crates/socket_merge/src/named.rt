//! Open sockets by name.

ghost use Rattle.std.specs.{Prelude.{◌≡◌, ◌≤◌, List, [], ◌∷◌, ◌++◌, ◌&&◌, length, map, IfOk, OnOk, OnErr, option_copied, if◌then◌else◌}, List.{count_by}};
ghost use Rattle.socket_merge.specs.{History.{Change, Close, Socket, same_name, sockets_after, socket_named}, FullReport.{is_empty}, Interface.{filters_on, same_group, some_admits}, Kept.{has_socket, listed_in, listed_on, some_wants}, Refusal.{family_of}};
ghost use Rattle.source_filter.specs.Filter.{admits, wants_any};

use crate::family::{family_of, is_of_family};
use crate::stored::{Socket, wants_any};
use amt_values::{Bytes, Ip};
use group_records::REPORT_LIMIT;
use source_filter::{Filter, copy_filter};
use std::alloc::{AllocError, Global};
use std::marker::Model;

/// Open sockets, in the order in which they were opened.
#[derive(Debug, Drop)]
pub struct NamedSockets {
    sockets: Vec<Socket>,
}

impl Model for NamedSockets {
    ghost use Rattle.std.specs.Prelude.{List};
    ghost use Rattle.socket_merge.specs.History.{Socket};

    ghost Value = { List Socket };

    ghost view = { λ s. s.sockets.items };
}

impl NamedSockets {
    pub fn new(alloc: Global) -> Self
        ensures { result ≡ [] }
    {
        NamedSockets {
            sockets: Vec::new(alloc),
        }
    }

    /// The sockets, in the order in which they were opened.
    pub fn as_slice(&self) -> &[Socket]
        ensures { result.now ≡ self.now }
    {
        self.sockets.as_slice()
    }

    /// The socket of this name.
    pub fn find(&self, name: &[u8]) -> Option<&Socket>
        ensures { option_copied result ≡ socket_named name.now self.now }
    {
        self.sockets.iter().find(|socket| has_name(socket, name))
    }

    /// Whether some socket is of the group.
    pub fn has(&self, group: &Ip) -> bool
        ensures { result ≡ has_socket group.now self.now }
    {
        self.sockets.iter().any(|socket| is_on(socket, group))
    }

    /// Whether some socket of the group wants a source.
    pub fn wants(&self, group: &Ip) -> bool
        ensures { result ≡ some_wants group.now self.now }
    {
        self.sockets.iter().any(|socket| wants_on(socket, group))
    }

    /// How many sources the sockets of the group list, and those of its family, with repeats.
    pub fn listed(&self, group: &Ip) -> (usize, usize)
        requires on { listed_on group.now self.now ≤ REPORT_LIMIT }
        requires all { listed_in (family_of group.now) self.now ≤ REPORT_LIMIT }
        ensures on { result.0 ≡ listed_on group.now self.now }
        ensures all { result.1 ≡ listed_in (family_of group.now) self.now }
    {
        let family = family_of(group);
        let mut on = 0;
        let mut all = 0;
        for socket in self.sockets.as_slice() {
            on += listed_where(is_on(socket, group), socket);
            all += listed_where(is_of_family(family, &socket.group), socket);
        }
        (on, all)
    }

    pub fn is_empty(&self) -> bool
        ensures { result ≡ is_empty self.now }
    {
        self.sockets.is_empty()
    }

    /// Puts a socket at the end. Out of memory nothing changes.
    pub fn insert(
        &mut self,
        alloc: Global,
        name: &[u8],
        group: Ip,
        filter: Filter,
    ) -> Result<(), AllocError>
        ensures ok { OnOk result (self.new ≡ self.old
            ++ record { name = name.now; group = group; filter = filter } ∷ []) }
        ensures err { OnErr result (self.new ≡ self.old) }
    {
        let name = Bytes::copied(alloc, name)?;
        self.sockets.push(Socket {
            name,
            group,
            filter,
        })?;
        Ok(())
    }

    /// Takes the last socket away, if there is one.
    pub fn remove_last(&mut self)
        ensures { (sockets : List Socket) (last : Socket)
            → self.old ≡ sockets ++ last ∷ [] → self.new ≡ sockets }
    {
        self.sockets.pop();
    }

    /// Gives the socket of this name another filter, if there is one.
    pub fn set_filter(&mut self, name: &[u8], filter: Filter)
        requires apart { count_by (λ socket. same_name name.now socket.name) self.old ≤ 1 }
        ensures { self.new ≡ sockets_after (Change name.now filter) self.old }
    {
        let Some(place) = self
            .sockets
            .iter()
            .position(|socket| has_name(socket, name))
        else {
            return;
        };
        self.sockets[place].filter = filter;
    }

    /// Takes the socket of this name away, if there is one.
    pub fn remove(&mut self, name: &[u8])
        ensures { self.new ≡ sockets_after (Close name.now) self.old }
    {
        self.sockets.retain(|socket| !has_name(socket, name));
    }

    /// Takes every socket away.
    pub fn clear(&mut self)
        ensures { self.new ≡ [] }
    {
        self.sockets.clear();
    }

    /// Equal filters of the sockets of a group, in their order.
    pub fn filters_of(&self, alloc: Global, group: &Ip) -> Result<Vec<Filter>, AllocError>
        ensures { IfOk result (λ filters. filters.items ≡ filters_on group.now self.now) }
    {
        let mut filters = Vec::new(alloc);
        for socket in self.sockets.as_slice() {
            push_filter(&mut filters, alloc, socket, group)?;
        }
        Ok(filters)
    }

    /// Puts the group of each socket at the end, in their order.
    pub fn append_groups(&self, groups: &mut Vec<Ip>) -> Result<(), AllocError>
        ensures { OnOk result (groups.new.items
            ≡ groups.old.items ++ map (λ socket. socket.group) self.now) }
    {
        for socket in self.sockets.as_slice() {
            groups.push(socket.group)?;
        }
        Ok(())
    }

    /// Whether some socket of the group wants the source.
    pub fn some_admits(&self, group: &Ip, source: &Ip) -> bool
        ensures { result ≡ some_admits group.now source.now self.now }
    {
        self.sockets
            .iter()
            .any(|socket| admits_on(socket, group, source))
    }

    /// Equal sockets that own their memory.
    pub fn copy(&self, alloc: Global) -> Result<NamedSockets, AllocError>
        ensures { IfOk result (λ copy. copy ≡ self.now) }
    {
        let mut copy = NamedSockets::new(alloc);
        for socket in self.sockets.as_slice() {
            let filter = copy_filter(alloc, &socket.filter)?;
            copy.insert(alloc, socket.name.as_slice(), socket.group, filter)?;
        }
        Ok(copy)
    }
}

// Puts an equal filter at the end, where the socket is of the group.
fn push_filter(
    filters: &mut Vec<Filter>,
    alloc: Global,
    socket: &Socket,
    group: &Ip,
) -> Result<(), AllocError>
    ensures { OnOk result (filters.new.items ≡ filters.old.items ++ filters_on group.now (socket.now ∷ [])) }
{
    if is_on(socket, group) {
        filters.push(copy_filter(alloc, &socket.filter)?)?;
    }
    Ok(())
}

// The socket has the name.
fn has_name(socket: &Socket, name: &[u8]) -> bool
    ensures { result ≡ same_name name.now socket.now.name }
{
    name == socket.name.as_slice()
}

// The socket is of the group.
fn is_on(socket: &Socket, group: &Ip) -> bool
    ensures { result ≡ same_group group.now socket.now.group }
{
    *group == socket.group
}

// The socket is of the group and wants the source.
fn admits_on(socket: &Socket, group: &Ip, source: &Ip) -> bool
    ensures { result ≡ (same_group group.now socket.now.group && admits socket.now.filter source.now) }
{
    *group == socket.group && socket.filter.admits(source)
}

// The socket is of the group and wants some source.
fn wants_on(socket: &Socket, group: &Ip) -> bool
    ensures { result ≡ (same_group group.now socket.now.group && wants_any socket.now.filter) }
{
    is_on(socket, group) && wants_any(&socket.filter)
}

// How many sources the socket lists, where it counts.
fn listed_where(counts: bool, socket: &Socket) -> usize
    ensures { result ≡ if counts then length socket.now.filter.sources else 0 }
{
    if counts {
        socket.filter.sources().len()
    } else {
        0
    }
}
