//! The devices of a relay's turns.
ghost use Rattle.std.specs.Prelude.{◌≡◌, ◌≤◌, length, None};

use crate::packets::{ENDPOINT, OTHER_UPDATE, UPDATE, packet};
use amt_ports::{Clock, Failed, Feed, FeedGot, Got, Link};
use amt_values::{Moment, Peer};

// Copies the octets to the start of the buffer.
fn put(buf: &mut [u8], octets: &[u8])
    requires { length octets.now ≤ length buf.old }
    ensures { length buf.new ≡ length buf.old }
{
    let (start, _) = buf.split_at_mut(octets.len());
    start.copy_from_slice(octets);
}

/// A link that has both Updates in the first turn, and nothing later.
#[derive(Drop)]
pub struct TwoUpdates {
    asked: u64,
}

impl TwoUpdates {
    pub fn new() -> TwoUpdates {
        TwoUpdates { asked: 0 }
    }
}

impl Link for TwoUpdates {
    ghost coming = { λ _. None };

    ghost tried = { λ _. None };

    ghost receive_faults = { λ _. 0 };

    ghost send_faults = { λ _. 0 };

    ghost longest_wait = { λ _. 0 };

    fn recv(&mut self, buf: &mut [u8], wait_ms: u32) -> Result<Got, Failed> {
        self.asked = self.asked.saturating_add(1);
        let octets = match self.asked {
            1 => &UPDATE,
            2 => &OTHER_UPDATE,
            _ => return Ok(Got::Nothing),
        };
        put(buf, octets.as_slice());
        Ok(Got::Datagram(ENDPOINT, 52))
    }

    fn send(&mut self, to: &Peer, bytes: &[u8]) -> Result<(), Failed> {
        Ok(())
    }
}

/// A feed that has so many packets in each turn but the first, at most 63.
#[derive(Drop)]
pub struct Packets {
    number: u16,
    in_turn: u16,
    left: u16,
}

impl Packets {
    pub fn new(in_turn: u16) -> Packets {
        Packets {
            number: 0,
            in_turn,
            left: 0,
        }
    }
}

impl Feed for Packets {
    ghost coming = { λ _. None };

    ghost faults = { λ _. 0 };

    ghost longest_wait = { λ _. 0 };

    fn recv(&mut self, buf: &mut [u8], wait_ms: u32) -> Result<FeedGot, Failed> {
        if self.left == 0 {
            self.left = self.in_turn;
            return Ok(FeedGot::Nothing);
        }
        self.left -= 1;
        put(buf, packet(self.number).as_slice());
        self.number = self.number.wrapping_add(1);
        Ok(FeedGot::Packet(28))
    }
}

/// A clock whose moments are 0, 1 and so on, in milliseconds.
#[derive(Drop)]
pub struct Ticks {
    next: u64,
}

impl Ticks {
    pub fn new() -> Ticks {
        Ticks { next: 0 }
    }
}

impl Clock for Ticks {
    ghost given = { λ _. None };

    ghost faults = { λ _. 0 };

    fn now(&mut self) -> Moment {
        let moment = Moment::new(self.next).unwrap_or(Moment::new(0).unwrap());
        self.next = self.next.saturating_add(1);
        moment
    }
}
