//! What opens the devices of a run.
ghost use Rattle.std.specs.Prelude.{◌≡◌, ◌≤◌, ℕ, IfOk, IsErrOf, IsSome, List, OnErr, OnOk, Option, is_some, length};
ghost use Rattle.amt_ports.specs.{Causes.{Rose}, Told.{Appends}};
ghost use Rattle.serving_commands.specs.{Seen.{is_asked}, Sets.{HasRoom, TakesFirst, less_room, more_room}, declared.opening.{asked.Opening.{Opening as Asked, TheVariants.{Relay as AskedRelay, Gateway as AskedGateway}}, devices.DeviceSet.{DeviceSet as Set, TheVariants.{Relay as OfRelay, Gateway as OfGateway}}}};

use crate::opening::asked::{AskedBy, Opening};
use crate::opening::sets::{GatewaySet, RelaySet};
use amt_values::Peer;

/// Why devices were not opened.
#[derive(Clone, Copy, Debug, PartialEq, Eq)]
pub enum OpenFault {
    /// One of them can't be had. The count of faults is the evidence.
    Failed,
    /// Memory was refused.
    Memory,
}

/// A place where the devices of a run are opened, and where they are given back at its end.
pub trait Live {
    /// What a relay runs on here.
    type Relay: RelaySet;

    /// What a gateway runs on here.
    type Gateway: GatewaySet;

    /// The sets of devices that openings will give from here on, where it tells them.
    ghost sets: { Self → Option (List (Set Self.Relay Self.Gateway)) };

    /// The openings that were asked for so far, in order, where it tells them.
    ghost asked: { Self → Option (List Asked) };

    /// The sets that were given back so far, in order, where it tells them.
    ghost returned: { Self → Option (List (Set Self.Relay Self.Gateway)) };

    /// For how many sets it has kept room, so that they can be given back without memory. None is that it
    /// needs no room.
    ghost room: { Self → Option ℕ };

    /// How often an opening has failed. A count at 2^64 - 1 stays there.
    ghost faults: { Self → ℕ };

    /// Opens what a relay runs on: the link at the first peer, the feed at the second, a control where somebody asks,
    /// and one link out for each slot.
    fn open_relay(
        &mut self,
        listen: &Peer,
        feed: &Peer,
        asking: &AskedBy,
        slots: u32,
    ) -> Result<Self::Relay, OpenFault>
        ensures outs { IfOk result (λ devices. length (Self.Relay.seen devices).outs ≡ slots) }
        ensures control { IfOk result
            (λ devices. is_some (Self.Relay.seen devices).control ≡ is_asked asking.now) }
        ensures first { IfOk result (λ devices. TakesFirst (sets self.old) (sets self.new) (OfRelay devices)) }
        ensures room { OnOk result (room self.new ≡ more_room (room self.old)) }

        ensures kept { OnErr result (sets self.new ≡ sets self.old) }
        ensures same_room { OnErr result (room self.new ≡ room self.old) }

        ensures asked { Appends (asked self.old) (asked self.new) (AskedRelay listen.now feed.now asking.now slots) }
        ensures tells { OnOk result (IsSome (asked self.old) → IsSome (asked self.new)) }
        ensures returned { returned self.new ≡ returned self.old }

        ensures later { faults self.old ≤ faults self.new }
        ensures failed { IsErrOf result OpenFault.Failed → Rose (faults self.old) (faults self.new) }
        ensures quiet { ¬ IsErrOf result OpenFault.Failed → faults self.new ≡ faults self.old };

    /// Takes back what a relay ran on. It takes no memory: the room was made at the opening.
    fn return_relay(&mut self, devices: Self::Relay)
        requires { HasRoom (room self.old) }
        ensures returned { Appends (returned self.old) (returned self.new) (OfRelay devices) }
        ensures tells { IsSome (returned self.old) → IsSome (returned self.new) }
        ensures room { room self.new ≡ less_room (room self.old) }

        ensures kept { sets self.new ≡ sets self.old }
        ensures asked { asked self.new ≡ asked self.old }
        ensures faults { faults self.new ≡ faults self.old };

    /// Opens what a gateway runs on: the link at the first peer, and its control socket at the second, beside which it
    /// asks itself each so many seconds, where they aren't 0, with one link out.
    fn open_gateway(
        &mut self,
        listen: &Peer,
        control: &Peer,
        report_seconds: u32,
    ) -> Result<Self::Gateway, OpenFault>
        ensures first { IfOk result (λ devices. TakesFirst (sets self.old) (sets self.new) (OfGateway devices)) }
        ensures room { OnOk result (room self.new ≡ more_room (room self.old)) }

        ensures kept { OnErr result (sets self.new ≡ sets self.old) }
        ensures same_room { OnErr result (room self.new ≡ room self.old) }

        ensures asked { Appends (asked self.old) (asked self.new) (AskedGateway listen.now control.now report_seconds) }
        ensures tells { OnOk result (IsSome (asked self.old) → IsSome (asked self.new)) }
        ensures returned { returned self.new ≡ returned self.old }

        ensures later { faults self.old ≤ faults self.new }
        ensures failed { IsErrOf result OpenFault.Failed → Rose (faults self.old) (faults self.new) }
        ensures quiet { ¬ IsErrOf result OpenFault.Failed → faults self.new ≡ faults self.old };

    /// Takes back what a gateway ran on. It takes no memory: the room was made at the opening.
    fn return_gateway(&mut self, devices: Self::Gateway)
        requires { HasRoom (room self.old) }
        ensures returned { Appends (returned self.old) (returned self.new) (OfGateway devices) }
        ensures tells { IsSome (returned self.old) → IsSome (returned self.new) }
        ensures room { room self.new ≡ less_room (room self.old) }

        ensures kept { sets self.new ≡ sets self.old }
        ensures asked { asked self.new ≡ asked self.old }
        ensures faults { faults self.new ≡ faults self.old };
}
