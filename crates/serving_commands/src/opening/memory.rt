//! Sets of devices in memory, for tests and callers.
ghost use Rattle.std.specs.Prelude.{◌≡◌, ◌≤◌, ◌<◌, ◌⊎◌, [], ◌∷◌, Contains, IfOk, IsErr, IsErrOf, IsSome, OnErr, OnOk, Some, false, is_some, length, true};
ghost use Rattle.amt_ports.specs.{Causes.{HasCause, Rose, next_count}, Tally.{fresh_tally, with_call, with_fault}, Told.{Appends}};
ghost use Rattle.serving_commands.specs.{MemLive.{with_room}, Seen.{is_asked}, Sets.{HasRoom, TakesFirst, fits_gateway, fits_relay, less_room, more_room}, declared.opening.{asked.Opening.TheVariants.{Relay as AskedRelay, Gateway as AskedGateway}, devices.DeviceSet.TheVariants.{Relay as OfRelay, Gateway as OfGateway}}};

use crate::opening::asked::{AskedBy, AskedLog, Opening};
use crate::opening::devices::DeviceSet;
use crate::opening::live::{Live, OpenFault};
use crate::opening::returns::Returns;
use crate::opening::sets::{GatewaySet, RelaySet};
use amt_ports::{CallTally, Failed};
use amt_values::Peer;
use std::alloc::Global;
use std::marker::Model;

/// Sets of devices, which are handed out in order, and of which some openings may fail.
///
/// An opening fails where its number is listed, where no set is to come, and where the first one isn't what it
/// asks for: of the other kind, or a relay's with another number of links out than there are slots, or with a
/// control where none is asked for, or the other way round. That set stays the first one. Where an allocation
/// for what was asked fails, the openings aren't told from then on.
#[derive(Drop)]
pub struct MemLive<R, G> {
    sets: Vec<DeviceSet<R, G>>,
    asked: AskedLog,
    returned: Returns<DeviceSet<R, G>>,
    calls: CallTally,
}

impl<R, G> Model for MemLive<R, G> {
    ghost use Rattle.serving_commands.specs.{MemLive.{OpenCalls}, declared.opening.devices.DeviceSet.{DeviceSet as Set}};

    ghost Value = { OpenCalls (Set R G) };

    ghost view = { λ live. record { sets = live.sets.items; asked = live.asked; returned = live.returned; calls = live.calls } };
}

impl<R: Drop, G: Drop> MemLive<R, G> {
    /// No opening fails while a set that fits it is to come.
    pub fn new(alloc: Global, sets: Vec<DeviceSet<R, G>>) -> Self
        ensures sets { result.sets ≡ sets.items }
        ensures asked { result.asked ≡ Some [] }
        ensures returned { result.returned.sets ≡ [] }
        ensures room { result.returned.room ≡ 0 }
        ensures calls { result.calls ≡ fresh_tally [] }
    {
        MemLive::failing(alloc, sets, Vec::new(alloc))
    }

    /// The openings of these numbers fail, counted from 1.
    pub fn failing(alloc: Global, sets: Vec<DeviceSet<R, G>>, calls: Vec<u64>) -> Self
        ensures sets { result.sets ≡ sets.items }
        ensures asked { result.asked ≡ Some [] }
        ensures returned { result.returned.sets ≡ [] }
        ensures room { result.returned.room ≡ 0 }
        ensures calls { result.calls ≡ fresh_tally calls.items }
    {
        MemLive {
            sets,
            asked: AskedLog::new(alloc),
            returned: Returns::new(alloc),
            calls: CallTally::new(calls),
        }
    }

    /// The openings that were asked for, in order; all of them, unless memory ran out.
    pub fn asked(&self) -> &[Opening]
        ensures { IsSome self.now.asked → self.now.asked ≡ Some result.now }
    {
        self.asked.as_slice()
    }

    /// The sets that were given back, in order.
    pub fn returned(&self) -> &[DeviceSet<R, G>]
        ensures { result.now ≡ self.now.returned.sets }
    {
        self.returned.as_slice()
    }

    /// How many openings failed.
    pub fn faults(&self) -> u64
        ensures { result ≡ self.now.calls.faults }
    {
        self.calls.faults()
    }
}

// Whether the first set to come is a relay's, with so many links out, and a control as asked.
fn fits_relay<R: RelaySet, G>(slots: u32, asked: bool, sets: &[DeviceSet<R, G>]) -> bool
    ensures { result ≡ fits_relay R.seen slots asked sets.now }
{
    match sets.first() {
        Some(DeviceSet::Relay(devices)) => devices.is_for(slots, asked),
        _ => false,
    }
}

// Whether the first set to come is a gateway's.
fn fits_gateway<R, G>(sets: &[DeviceSet<R, G>]) -> bool
    ensures { result ≡ fits_gateway sets.now }
{
    matches!(sets.first(), Some(DeviceSet::Gateway(_)))
}

// Counts an opening, and a fault where its number is listed or the first set to come doesn't fit it.
fn count_opening(calls: &mut CallTally, fits: bool) -> Result<(), Failed>
    ensures listed { Contains calls.old.failing (next_count calls.old.made) → IsErr result }
    ensures unfit { fits ≡ false → IsErr result }
    ensures only { OnErr result (Contains calls.old.failing (next_count calls.old.made)
        ⊎ (fits ≡ false)) }
    ensures ok { OnOk result (calls.new ≡ with_call calls.old) }
    ensures err { OnErr result (calls.new ≡ with_fault (with_call calls.old)) }
    ensures cause { HasCause calls.old.faults calls.new.faults result }
{
    calls.call()?;
    if !fits {
        return Err(calls.fail());
    }
    Ok(())
}

// Keeps what was asked, counts the opening, and makes room for the return of the set that it hands out.
fn admit<T: Drop>(
    asked: &mut AskedLog,
    calls: &mut CallTally,
    returned: &mut Returns<T>,
    opening: Opening,
    fits: bool,
) -> Result<(), OpenFault>
    ensures fits { OnOk result (fits ≡ true) }
    ensures room { OnOk result (returned.new ≡ with_room returned.old) }
    ensures same_room { OnErr result (returned.new ≡ returned.old) }

    ensures asked { Appends asked.old asked.new opening }
    ensures tells { OnOk result (IsSome asked.old → IsSome asked.new) }

    ensures listed { Contains calls.old.failing (next_count calls.old.made)
        → IsErrOf result OpenFault.Failed }
    ensures unfit { fits ≡ false → IsErrOf result OpenFault.Failed }
    ensures only { IsErrOf result OpenFault.Failed
        → Contains calls.old.failing (next_count calls.old.made) ⊎ (fits ≡ false) }
    ensures err { IsErrOf result OpenFault.Failed
        → calls.new ≡ with_fault (with_call calls.old) }
    ensures ok { ¬ IsErrOf result OpenFault.Failed → calls.new ≡ with_call calls.old }
    ensures rose { IsErrOf result OpenFault.Failed → Rose calls.old.faults calls.new.faults }
    ensures later { calls.old.faults ≤ calls.new.faults }
{
    let kept = asked.keep(opening);
    let Ok(()) = count_opening(calls, fits) else {
        return Err(OpenFault::Failed);
    };
    if kept.is_err() {
        return Err(OpenFault::Memory);
    }
    match returned.make_room() {
        Ok(()) => Ok(()),
        Err(_) => Err(OpenFault::Memory),
    }
}

// Takes the first set out.
fn take_first<T>(sets: &mut Vec<T>) -> T
    requires { 1 ≤ length sets.old.items }
    ensures { sets.old.items ≡ result ∷ sets.new.items }
{
    sets.remove(0)
}

// Takes the first set out, which is a relay's.
fn take_relay<R: RelaySet, G>(slots: u32, asked: bool, sets: &mut Vec<DeviceSet<R, G>>) -> R
    requires { fits_relay R.seen slots asked sets.old.items ≡ true }
    ensures first { sets.old.items ≡ OfRelay result ∷ sets.new.items }
    ensures outs { length (R.seen result).outs ≡ slots }
    ensures control { is_some (R.seen result).control ≡ asked }
{
    match take_first(sets) {
        DeviceSet::Relay(devices) => devices,
        DeviceSet::Gateway(_) => unreachable!(),
    }
}

// Takes the first set out, which is a gateway's.
fn take_gateway<R, G>(sets: &mut Vec<DeviceSet<R, G>>) -> G
    requires { fits_gateway sets.old.items ≡ true }
    ensures first { sets.old.items ≡ OfGateway result ∷ sets.new.items }
{
    match take_first(sets) {
        DeviceSet::Gateway(devices) => devices,
        DeviceSet::Relay(_) => unreachable!(),
    }
}

impl<R: RelaySet + Drop, G: GatewaySet + Drop> Live for MemLive<R, G> {
    type Relay = R;

    type Gateway = G;

    ghost sets = { λ live. Some live.sets };

    ghost asked = { λ live. live.asked };

    ghost returned = { λ live. Some live.returned.sets };

    ghost room = { λ live. Some live.returned.room };

    ghost faults = { λ live. live.calls.faults };

    fn open_relay(
        &mut self,
        listen: &Peer,
        feed: &Peer,
        asking: &AskedBy,
        slots: u32,
    ) -> Result<R, OpenFault>
        ensures outs { IfOk result (λ devices. length (R.seen devices).outs ≡ slots) }
        ensures control { IfOk result
            (λ devices. is_some (R.seen devices).control ≡ is_asked asking.now) }
        ensures first { IfOk result (λ devices. TakesFirst (Some self.old.sets)
            (Some self.new.sets) (OfRelay devices)) }
        ensures room { OnOk result
            (Some self.new.returned.room ≡ more_room (Some self.old.returned.room)) }

        ensures kept { OnErr result (Some self.new.sets ≡ Some self.old.sets) }
        ensures same_room { OnErr result
            (Some self.new.returned.room ≡ Some self.old.returned.room) }

        ensures asked { Appends self.old.asked self.new.asked
            (AskedRelay listen.now feed.now asking.now slots) }
        ensures tells { OnOk result (IsSome self.old.asked → IsSome self.new.asked) }
        ensures returned { Some self.new.returned.sets ≡ Some self.old.returned.sets }

        ensures later { self.old.calls.faults ≤ self.new.calls.faults }
        ensures failed { IsErrOf result OpenFault.Failed
            → Rose self.old.calls.faults self.new.calls.faults }
        ensures quiet { ¬ IsErrOf result OpenFault.Failed
            → self.new.calls.faults ≡ self.old.calls.faults }

        ensures listed { Contains self.old.calls.failing (next_count self.old.calls.made)
            → IsErrOf result OpenFault.Failed }
        ensures unfit { fits_relay R.seen slots (is_asked asking.now) self.old.sets ≡ false
            → IsErrOf result OpenFault.Failed }
        ensures only { IsErrOf result OpenFault.Failed
            → Contains self.old.calls.failing (next_count self.old.calls.made)
            ⊎ (fits_relay R.seen slots (is_asked asking.now) self.old.sets ≡ false) }
        ensures err { IsErrOf result OpenFault.Failed
            → self.new.calls ≡ with_fault (with_call self.old.calls) }
        ensures ok { ¬ IsErrOf result OpenFault.Failed
            → self.new.calls ≡ with_call self.old.calls }
    {
        let opening = Opening::Relay {
            listen: *listen,
            feed: *feed,
            asking: *asking,
            slots,
        };
        let asked = asking.is_wanted();
        let fits = fits_relay(slots, asked, self.sets.as_slice());
        match admit(
            &mut self.asked,
            &mut self.calls,
            &mut self.returned,
            opening,
            fits,
        ) {
            Ok(()) => Ok(take_relay(slots, asked, &mut self.sets)),
            Err(fault) => Err(fault),
        }
    }

    fn return_relay(&mut self, devices: R)
        requires { HasRoom (Some self.old.returned.room) }
        ensures returned { Appends (Some self.old.returned.sets) (Some self.new.returned.sets)
            (OfRelay devices) }
        ensures tells { IsSome (Some self.old.returned.sets)
            → IsSome (Some self.new.returned.sets) }
        ensures room { Some self.new.returned.room ≡ less_room (Some self.old.returned.room) }

        ensures kept { Some self.new.sets ≡ Some self.old.sets }
        ensures asked { self.new.asked ≡ self.old.asked }
        ensures faults { self.new.calls.faults ≡ self.old.calls.faults }

        ensures calls { self.new.calls ≡ self.old.calls }
    {
        self.returned.keep(DeviceSet::Relay(devices));
    }

    fn open_gateway(
        &mut self,
        listen: &Peer,
        control: &Peer,
        report_seconds: u32,
    ) -> Result<G, OpenFault>
        ensures first { IfOk result (λ devices. TakesFirst (Some self.old.sets)
            (Some self.new.sets) (OfGateway devices)) }
        ensures room { OnOk result
            (Some self.new.returned.room ≡ more_room (Some self.old.returned.room)) }

        ensures kept { OnErr result (Some self.new.sets ≡ Some self.old.sets) }
        ensures same_room { OnErr result
            (Some self.new.returned.room ≡ Some self.old.returned.room) }

        ensures asked { Appends self.old.asked self.new.asked
            (AskedGateway listen.now control.now report_seconds) }
        ensures tells { OnOk result (IsSome self.old.asked → IsSome self.new.asked) }
        ensures returned { Some self.new.returned.sets ≡ Some self.old.returned.sets }

        ensures later { self.old.calls.faults ≤ self.new.calls.faults }
        ensures failed { IsErrOf result OpenFault.Failed
            → Rose self.old.calls.faults self.new.calls.faults }
        ensures quiet { ¬ IsErrOf result OpenFault.Failed
            → self.new.calls.faults ≡ self.old.calls.faults }

        ensures listed { Contains self.old.calls.failing (next_count self.old.calls.made)
            → IsErrOf result OpenFault.Failed }
        ensures unfit { fits_gateway self.old.sets ≡ false → IsErrOf result OpenFault.Failed }
        ensures only { IsErrOf result OpenFault.Failed
            → Contains self.old.calls.failing (next_count self.old.calls.made)
            ⊎ (fits_gateway self.old.sets ≡ false) }
        ensures err { IsErrOf result OpenFault.Failed
            → self.new.calls ≡ with_fault (with_call self.old.calls) }
        ensures ok { ¬ IsErrOf result OpenFault.Failed
            → self.new.calls ≡ with_call self.old.calls }
    {
        let opening = Opening::Gateway {
            listen: *listen,
            control: *control,
            report_seconds,
        };
        let fits = fits_gateway(self.sets.as_slice());
        match admit(
            &mut self.asked,
            &mut self.calls,
            &mut self.returned,
            opening,
            fits,
        ) {
            Ok(()) => Ok(take_gateway(&mut self.sets)),
            Err(fault) => Err(fault),
        }
    }

    fn return_gateway(&mut self, devices: G)
        requires { HasRoom (Some self.old.returned.room) }
        ensures returned { Appends (Some self.old.returned.sets) (Some self.new.returned.sets)
            (OfGateway devices) }
        ensures tells { IsSome (Some self.old.returned.sets)
            → IsSome (Some self.new.returned.sets) }
        ensures room { Some self.new.returned.room ≡ less_room (Some self.old.returned.room) }

        ensures kept { Some self.new.sets ≡ Some self.old.sets }
        ensures asked { self.new.asked ≡ self.old.asked }
        ensures faults { self.new.calls.faults ≡ self.old.calls.faults }

        ensures calls { self.new.calls ≡ self.old.calls }
    {
        self.returned.keep(DeviceSet::Gateway(devices));
    }
}
