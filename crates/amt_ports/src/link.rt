//! What a UDP socket is to a machine: datagrams come in, and datagrams go out.
ghost use Rattle.std.specs.Prelude.{◌≡◌, ◌≤◌, ℕ, max, IsSome, List, Option, length, IfOk, OnOk, OnErr};
ghost use Rattle.amt_ports.specs.{Arrivals.{IsShortGot, link_answer}, Causes.{HasCause}, Sends.{TriedSend, tried_send}, Told.{Answers, Appends}, declared.link.LinkAnswer.{LinkAnswer as Answer, TheVariants.{Closed as ClosedLink}}};

use crate::Failed;
use amt_values::{Bytes, Peer};

/// What a receiving found.
#[derive(Clone, Copy, Debug, PartialEq, Eq)]
pub enum Got {
    /// A datagram from this peer, of so many octets, at the start of the buffer.
    Datagram(Peer, usize),
    /// Nothing came in the time.
    Nothing,
    /// Nothing will come any more.
    Closed,
}

/// The answer of a receiving, with its octets.
#[derive(Debug, Drop)]
pub enum LinkAnswer {
    Datagram(Peer, Bytes),
    Nothing,
    Closed,
}

/// Where datagrams come from and go to.
pub trait Link {
    /// The answers that receivings will give from here on, where the device tells them. After the last
    /// one it is closed.
    ghost coming: { Self → Option (List Answer) };

    /// The sends that were tried so far, in order, where the device tells them.
    ghost tried: { Self → Option (List TriedSend) };

    /// How often a receiving has failed. A count at 2^64 - 1 stays there.
    ghost receive_faults: { Self → ℕ };

    /// How often a send has failed. A count at 2^64 - 1 stays there.
    ghost send_faults: { Self → ℕ };

    /// The longest wait in milliseconds that a receiving was asked for; 0 where the device doesn't tell it.
    ghost longest_wait: { Self → ℕ };

    /// Waits at most so many milliseconds for a datagram, and writes its octets to the start of the buffer. With 0
    /// it doesn't wait. A receiving that failed has taken none.
    fn recv(&mut self, buf: &mut [u8], wait_ms: u32) -> Result<Got, Failed>
        requires room { 65536 ≤ length buf.old }
        ensures short { IfOk result IsShortGot }
        ensures buffer { length buf.new ≡ length buf.old }
        ensures answer { IfOk result (λ got. Answers ClosedLink (coming self.old) (coming self.new) (link_answer got buf.new)) }
        ensures kept { OnErr result (coming self.new ≡ coming self.old) }
        ensures sends { tried self.new ≡ tried self.old }
        ensures cause { HasCause (receive_faults self.old) (receive_faults self.new) result }
        ensures apart { send_faults self.new ≡ send_faults self.old }
        ensures waits { longest_wait self.new ≤ max (longest_wait self.old) wait_ms };

    /// Tries to send the octets to the peer, once.
    fn send(&mut self, to: &Peer, bytes: &[u8]) -> Result<(), Failed>
        ensures tried { Appends (tried self.old) (tried self.new) (tried_send to.now bytes.now result) }
        ensures tells { OnOk result (IsSome (tried self.old) → IsSome (tried self.new)) }
        ensures cause { HasCause (send_faults self.old) (send_faults self.new) result }
        ensures apart { receive_faults self.new ≡ receive_faults self.old }
        ensures coming { coming self.new ≡ coming self.old }
        ensures waits { longest_wait self.new ≡ longest_wait self.old };
}
