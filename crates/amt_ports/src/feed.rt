//! Where packets come from, one in a datagram.
ghost use Rattle.std.specs.Prelude.{◌≡◌, ◌≤◌, ℕ, max, List, Option, length, IfOk, OnErr};
ghost use Rattle.amt_ports.specs.{Arrivals.{IsShortFeedGot, feed_answer}, Causes.{HasCause}, Told.{Answers}, declared.feed.FeedAnswer.{FeedAnswer as Answer, TheVariants.{Closed as ClosedFeed}}};

use crate::Failed;
use amt_values::Bytes;

/// What a receiving found.
#[derive(Clone, Copy, Debug, PartialEq, Eq)]
pub enum FeedGot {
    /// A packet of so many octets, at the start of the buffer.
    Packet(usize),
    /// Nothing came in the time.
    Nothing,
    /// Nothing will come any more.
    Closed,
}

/// The answer of a receiving, with its octets.
#[derive(Debug, Drop)]
pub enum FeedAnswer {
    Packet(Bytes),
    Nothing,
    Closed,
}

/// Where packets come from, in order and once.
pub trait Feed {
    /// The answers that receivings will give from here on, where the device tells them. After the last
    /// one it is closed.
    ghost coming: { Self → Option (List Answer) };

    /// How often the device has failed. A count at 2^64 - 1 stays there.
    ghost faults: { Self → ℕ };

    /// The longest wait in milliseconds that a receiving was asked for; 0 where the device doesn't tell it.
    ghost longest_wait: { Self → ℕ };

    /// Waits at most so many milliseconds for a packet, and writes its octets to the start of the buffer. A
    /// receiving that failed has taken none.
    fn recv(&mut self, buf: &mut [u8], wait_ms: u32) -> Result<FeedGot, Failed>
        requires room { 65536 ≤ length buf.old }
        requires wait { 1 ≤ wait_ms }
        ensures short { IfOk result IsShortFeedGot }
        ensures buffer { length buf.new ≡ length buf.old }
        ensures answer { IfOk result (λ got. Answers ClosedFeed (coming self.old) (coming self.new) (feed_answer got buf.new)) }
        ensures kept { OnErr result (coming self.new ≡ coming self.old) }
        ensures cause { HasCause (faults self.old) (faults self.new) result }
        ensures waits { longest_wait self.new ≤ max (longest_wait self.old) wait_ms };
}
