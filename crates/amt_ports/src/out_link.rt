//! Where datagrams are sent to.
ghost use Rattle.std.specs.Prelude.{ℕ, IsSome, List, OnOk, Option};
ghost use Rattle.amt_ports.specs.{Causes.{HasCause}, Sends.{TriedSend, tried_send}, Told.{Appends}};

use crate::Failed;
use amt_values::Peer;

/// A place that datagrams are sent to, each to a peer.
pub trait OutLink {
    /// The sends that were tried so far, in order, where the device tells them.
    ghost tried: { Self → Option (List TriedSend) };

    /// How often the device has failed. A count at 2^64 - 1 stays there.
    ghost faults: { Self → ℕ };

    /// Tries to send the octets to the peer, once.
    fn send(&mut self, to: &Peer, bytes: &[u8]) -> Result<(), Failed>
        ensures tried { Appends (tried self.old) (tried self.new) (tried_send to.now bytes.now result) }
        ensures tells { OnOk result (IsSome (tried self.old) → IsSome (tried self.new)) }
        ensures cause { HasCause (faults self.old) (faults self.new) result };
}
