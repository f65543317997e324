//! The sockets of a host.

ghost use Rattle.std.specs.Prelude.{◌≡◌, ◌≤◌, ◌↔◌, [], ◌∷◌, ◌++◌, true, false, length, All, IfOk, OnOk, OnErr, IsErr, Some};
ghost use Rattle.std.specs.Map.{keys_of};
ghost use Rattle.amt_values.specs.{Ascending.{IsAscending}, Group.{is_forwardable}, Order.{ip_order}, declared.address.Ip.{Ip}};
ghost use Rattle.source_filter.specs.Filter.{admits};
ghost use Rattle.group_records.specs.Written.{IsOfFamily, report_length};
ghost use Rattle.socket_merge.specs.{Changes.{IsOneCallAfter, changes_between}, FullReport.{family_by, full_report_of, is_quiet}, History.{Change, Close, LeaveAll, Open, moment_read, sockets_after, open_sockets, with_call}, Interface.{interface, wants}};
ghost use Rattle.socket_merge.specs.{Kept.{HasSlot, kept_at, left_after, some_wants}, Refusal.{FillsNoMore, IsWithinLimits, is_open, raw_report_length, refusal_of}, Sockets.{AnswersRefusal, AreOfGroup, AreOfSocket, ForHistory, HasNoOldFarewell, KeepsFarewells, SocketsHold}};

use crate::changes::changes_between;
use crate::family::family_by;
use crate::farewells::Farewells;
use crate::fault::{NoSocket, SocketFault};
use crate::limit::limit_passed;
use crate::named::NamedSockets;
use crate::stored::{Socket, left_after};
use amt_values::{Ip, Moment};
use group_records::{ITEM_LIMIT, REPORT_LIMIT};
use source_filter::{Filter, Records, copy_filter, merge};
use std::alloc::{AllocError, Global};
use std::marker::Model;

/// The open sockets of a host, each with a name, one group and a filter; and of each group that the
/// host wanted and wants no more, when it left.
///
/// A moment earlier than that of the last accepted call is read as that one.
#[derive(Debug, Drop)]
pub struct Sockets {
    moment: Moment,
    named: NamedSockets,
    farewells: Farewells,
}

impl Model for Sockets {
    ghost use Rattle.socket_merge.specs.{Kept.{IsSound, farewells_in, slots_of}, Sockets.{SocketsValue}};

    ghost Value = { SocketsValue };

    ghost view = { λ s. record { moment = s.moment; sockets = s.named; farewells = farewells_in s.farewells } };

    ghost invariant = { λ s. IsSound s.moment s.named s.farewells };

    // The slots are those of the sockets and farewells, so nothing is kept beside what contracts see.
    ghost inverse = { λ v. record { moment = v.moment; named = v.sockets; farewells = slots_of v.sockets v.farewells } };

    ghost inverse_ok = { λ s sound i. record { moment = s.moment; named = s.named; farewells = sound.back i } };
}

impl Sockets {
    /// No sockets.
    pub fn new(alloc: Global) -> Result<Sockets, AllocError>
        ensures stands { IfOk result (λ sockets. SocketsHold sockets []) }
    {
        Ok(Sockets {
            moment: Moment::new(0).unwrap(),
            named: NamedSockets::new(alloc),
            farewells: Farewells::new(alloc),
        })
    }

    /// Opens a socket of the group.
    pub fn open(
        &mut self,
        alloc: Global,
        name: &[u8],
        group: &Ip,
        filter: &Filter,
        at: &Moment,
    ) -> Result<(), SocketFault>
        requires forwarded { is_forwardable group.now ≡ true }
        requires family { AreOfGroup group.now filter.now }
        requires items { length filter.now.sources ≤ ITEM_LIMIT }
        ensures stands { ForHistory self.old (λ history. OnOk result (SocketsHold self.new
            (with_call at.now (Open name.now group.now filter.now) history))) }
        ensures sockets { OnOk result (self.new.sockets
            ≡ sockets_after (Open name.now group.now filter.now) self.old.sockets) }
        ensures fits { OnOk result (ForHistory self.new IsWithinLimits) }
        ensures drops { OnOk result (HasNoOldFarewell self.new) }

        ensures refused { ForHistory self.old (λ history. AnswersRefusal
            (refusal_of at.now (Open name.now group.now filter.now) history) result) }

        ensures same { OnErr result (self.new ≡ self.old) }
    {
        let moment = self.moment.later(at);
        if let Some(_) = self.named.find(name) {
            return Err(SocketFault::Taken);
        }
        let sources = filter.sources().len();
        if let Some(fault) = limit_passed(&self.named, &self.farewells, group, 0, sources, moment) {
            return Err(fault);
        }
        match insert_both(
            &mut self.named,
            &mut self.farewells,
            alloc,
            name,
            group,
            filter,
            moment,
        ) {
            Ok(()) => {}
            Err(_) => return Err(SocketFault::Memory),
        }
        self.moment = moment;
        self.farewells.drop_old(&self.named, moment);
        Ok(())
    }

    /// Gives a socket another filter.
    pub fn change(
        &mut self,
        alloc: Global,
        name: &[u8],
        filter: &Filter,
        at: &Moment,
    ) -> Result<(), SocketFault>
        requires family { AreOfSocket name.now self.old filter.now }
        requires items { length filter.now.sources ≤ ITEM_LIMIT }
        ensures stands { ForHistory self.old (λ history. OnOk result (SocketsHold self.new
            (with_call at.now (Change name.now filter.now) history))) }
        ensures sockets { OnOk result (self.new.sockets
            ≡ sockets_after (Change name.now filter.now) self.old.sockets) }
        ensures fits { OnOk result (ForHistory self.new IsWithinLimits) }
        ensures keeps { ForHistory self.old (λ history. OnOk result (KeepsFarewells
            (with_call at.now (Change name.now filter.now) history) self.old self.new)) }

        ensures refused { ForHistory self.old (λ history. AnswersRefusal
            (refusal_of at.now (Change name.now filter.now) history) result) }

        ensures same { OnErr result (self.new ≡ self.old) }
    {
        let moment = self.moment.later(at);
        let Some(socket) = self.named.find(name) else {
            return Err(SocketFault::NoSocket);
        };
        let group = socket.group;
        let before = socket.filter.sources().len();
        let after = filter.sources().len();
        if let Some(fault) = limit_passed(
            &self.named,
            &self.farewells,
            &group,
            before,
            after,
            moment,
        ) {
            return Err(fault);
        }
        let copy = match copy_filter(alloc, filter) {
            Ok(copy) => copy,
            Err(_) => return Err(SocketFault::Memory),
        };
        self.moment = moment;
        let wanted = self.named.wants(&group);
        self.named.set_filter(name, copy);
        self.farewells.follow(&self.named, &group, wanted, moment);
        Ok(())
    }

    /// Closes a socket.
    pub fn close(&mut self, name: &[u8], at: &Moment) -> Result<(), NoSocket>
        ensures stands { ForHistory self.old (λ history. OnOk result (SocketsHold self.new
            (with_call at.now (Close name.now) history))) }
        ensures sockets { OnOk result (self.new.sockets
            ≡ sockets_after (Close name.now) self.old.sockets) }
        ensures fits { OnOk result (ForHistory self.new IsWithinLimits) }
        ensures shrinks { ForHistory self.old (λ history. OnOk result (FillsNoMore history
            (with_call at.now (Close name.now) history))) }
        ensures keeps { ForHistory self.old (λ history. OnOk result (KeepsFarewells
            (with_call at.now (Close name.now) history) self.old self.new)) }

        ensures refused { ForHistory self.old (λ history.
            IsErr result ↔ (is_open name.now history ≡ false)) }

        ensures same { OnErr result (self.new ≡ self.old) }
    {
        let Some(socket) = self.named.find(name) else {
            return Err(NoSocket);
        };
        let group = socket.group;
        self.moment = self.moment.later(at);
        let wanted = self.named.wants(&group);
        self.named.remove(name);
        self.farewells
            .follow(&self.named, &group, wanted, self.moment);
        Ok(())
    }

    /// Closes every socket.
    pub fn leave_all(&mut self, at: &Moment)
        ensures stands { ForHistory self.old (λ history. SocketsHold self.new
            (with_call at.now LeaveAll history)) }
        ensures sockets { self.new.sockets ≡ sockets_after LeaveAll self.old.sockets }
        ensures fits { ForHistory self.new IsWithinLimits }
        ensures shrinks { ForHistory self.old (λ history. FillsNoMore history
            (with_call at.now LeaveAll history)) }
        ensures keeps { ForHistory self.old (λ history. KeepsFarewells
            (with_call at.now LeaveAll history) self.old self.new) }
    {
        self.moment = self.moment.later(at);
        self.farewells.leave_all(&self.named, self.moment);
        self.named.clear();
    }

    /// The open sockets, in the order in which they were opened.
    pub fn open_sockets(&self) -> &[Socket]
        ensures { ForHistory self.now (λ history. result.now ≡ open_sockets history) }
    {
        self.named.as_slice()
    }

    /// The filter of the group for all of its sockets (RFC 3376, section 3.2).
    pub fn interface(&self, alloc: Global, group: &Ip) -> Result<Filter, AllocError>
        ensures merged { ForHistory self.now (λ history. IfOk result (λ filter.
            filter ≡ interface history group.now)) }
        ensures admits { ForHistory self.now (λ history. IfOk result (λ filter.
            (source : Ip) → admits filter source ≡ wants history group.now source)) }
    {
        let filters = self.named.filters_of(alloc, group)?;
        merge(alloc, &filters)
    }

    /// Whether some socket of the group wants the source.
    pub fn admits(&self, group: &Ip, source: &Ip) -> bool
        ensures { ForHistory self.now (λ history. result ≡ wants history group.now source.now) }
    {
        self.named.some_admits(group, source)
    }

    /// What the host wants of each group of the family at a moment, by group, and a farewell for each
    /// group that it left less than so many milliseconds before. Farewells last at most 100,000 s.
    ///
    /// Its report is one datagram, since none is longer than the report of unmerged filters.
    pub fn full_report(
        &self,
        alloc: Global,
        v6: bool,
        at: &Moment,
        keep_ms: u64,
    ) -> Result<Records, AllocError>
        ensures records { ForHistory self.now (λ history. IfOk result (λ records.
            records ≡ full_report_of (family_by v6) history (moment_read at.now history) keep_ms)) }

        ensures forwarded { IfOk result (All (λ one. is_forwardable one.group ≡ true)) }
        ensures family { IfOk result (All (IsOfFamily (family_by v6))) }
        ensures short { ForHistory self.now (λ history. IfOk result (λ records.
            report_length (family_by v6) records ≤ raw_report_length (family_by v6) history)) }
        ensures fits { IfOk result (λ records. report_length (family_by v6) records ≤ REPORT_LIMIT) }
        ensures raw_fits { ForHistory self.now (λ history.
            raw_report_length (family_by v6) history ≤ REPORT_LIMIT) }
    {
        let family = family_by(v6);
        let moment = self.moment.later(at);
        self.farewells
            .report(alloc, &self.named, family, moment, keep_ms)
    }

    /// The records of what changed since the sockets before, by group: of each group of the family, from
    /// its filter for those sockets to its filter for these (RFC 3376, section 5.1).
    pub fn changes_since(
        &self,
        alloc: Global,
        before: &Sockets,
        v6: bool,
    ) -> Result<Records, AllocError>
        ensures records { IfOk result (λ records.
            records ≡ changes_between (family_by v6) before.now.sockets self.now.sockets) }
        ensures fits { IsOneCallAfter before.now.sockets self.now.sockets → IfOk result (λ records.
            report_length (family_by v6) records ≤ REPORT_LIMIT) }
        ensures forwarded { IfOk result (All (λ one. is_forwardable one.group ≡ true)) }
        ensures family { IfOk result (All (IsOfFamily (family_by v6))) }
    {
        let family = family_by(v6);
        changes_between(alloc, &before.named, &self.named, family)
    }

    /// Whether no socket is open and no farewell lasts.
    pub fn quiet(&self, at: &Moment, keep_ms: u64) -> bool
        ensures { ForHistory self.now (λ history.
            result ≡ is_quiet history (moment_read at.now history) keep_ms) }
    {
        self.named.is_empty() && !self.farewells.some_recent(self.moment.later(at), keep_ms)
    }

    /// Equal sockets that own their memory.
    pub fn copy_all(&self, alloc: Global) -> Result<Sockets, AllocError>
        ensures { IfOk result (λ copy. copy ≡ self.now) }
    {
        Ok(Sockets {
            moment: self.moment,
            named: self.named.copy(alloc)?,
            farewells: self.farewells.copy()?,
        })
    }
}

// Puts a socket in, and what becomes of its group, both or neither.
fn insert_both(
    named: &mut NamedSockets,
    farewells: &mut Farewells,
    alloc: Global,
    name: &[u8],
    group: &Ip,
    filter: &Filter,
    moment: Moment,
) -> Result<(), AllocError>
    ensures named { OnOk result (named.new ≡ named.old
        ++ record { name = name.now; group = group.now; filter = filter.now } ∷ []) }
    ensures slot { OnOk result (HasSlot group.now (Some (left_after (some_wants group.now named.new)
        (some_wants group.now named.old) moment (kept_at farewells.old group.now)))
        farewells.old farewells.new) }
    ensures ordered { OnOk result (IsAscending ip_order (keys_of farewells.new)) }
    ensures err_named { OnErr result (named.new ≡ named.old) }
    ensures err_farewells { OnErr result (farewells.new ≡ farewells.old) }
{
    let before = named.wants(group);
    named.insert(alloc, name, *group, copy_filter(alloc, filter)?)?;
    let left = left_after(named.wants(group), before, moment, farewells.left(group));
    let Ok(()) = farewells.put(*group, left) else {
        named.remove_last();
        return Err(AllocError);
    };
    Ok(())
}
