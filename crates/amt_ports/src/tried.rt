//! The sends that a device in memory keeps.
ghost use Rattle.std.specs.Prelude.{◌≡◌, [], Some, None, Contains, IsErr, IsSome, OnOk, OnErr};
ghost use Rattle.amt_ports.specs.{Causes.{HasCause, next_count}, MemOut.{Shows}, Sends.{tried_send}, Tally.{with_call, with_fault}, Told.{Appends}};

use crate::Failed;
use crate::tally::CallTally;
use amt_values::{Bytes, Peer};
use std::alloc::{AllocError, Global};
use std::marker::Model;

/// A datagram that was tried, and whether it was sent.
#[derive(Debug, Drop)]
pub struct Tried {
    pub to: Peer,
    pub bytes: Bytes,
    pub sent: bool,
}

/// The sends that were tried, in order. Contracts see them while none is missing.
#[derive(Debug, Drop)]
pub(crate) struct SendLog {
    alloc: Global,
    sends: Vec<Tried>,
    is_whole: bool,
}

impl Model for SendLog {
    ghost use Rattle.std.specs.Prelude.{List, Option};
    ghost use Rattle.amt_ports.specs.{MemOut.{told_sends}, Sends.{TriedSend}};

    ghost Value = { Option (List TriedSend) };

    ghost view = { λ log. told_sends log.is_whole log.sends.items };
}

impl SendLog {
    pub(crate) fn new(alloc: Global) -> Self
        ensures { result ≡ Some [] }
    {
        SendLog {
            alloc,
            sends: Vec::new(alloc),
            is_whole: true,
        }
    }

    pub(crate) fn as_slice(&self) -> &[Tried]
        ensures { Shows self.now result.now }
    {
        self.sends.as_slice()
    }

    /// Keeps a send. Where memory refuses that, the sends aren't told from then on.
    pub(crate) fn keep(&mut self, to: &Peer, bytes: &[u8], sent: bool) -> Result<(), AllocError>
        ensures ok { OnOk result (Appends self.old self.new
            (record { to = to.now; bytes = bytes.now; sent = sent })) }
        ensures tells { OnOk result (IsSome self.old → IsSome self.new) }
        ensures err { OnErr result (self.new ≡ None) }
    {
        let kept = self.push(to, bytes, sent);
        if kept.is_err() {
            self.is_whole = false;
        }
        kept
    }

    fn push(&mut self, to: &Peer, bytes: &[u8], sent: bool) -> Result<(), AllocError>
        ensures ok { OnOk result (Appends self.old self.new
            (record { to = to.now; bytes = bytes.now; sent = sent })) }
        ensures tells { OnOk result (IsSome self.old → IsSome self.new) }
    {
        let bytes = Bytes::copied(self.alloc, bytes)?;
        let to = *to;
        self.sends.push(Tried { to, bytes, sent })?;
        Ok(())
    }
}

// Counts a call of a device that sends, and keeps the send with its answer.
pub(crate) fn send_by(
    log: &mut SendLog,
    tally: &mut CallTally,
    to: &Peer,
    bytes: &[u8],
) -> Result<(), Failed>
    ensures tried { Appends log.old log.new (tried_send to.now bytes.now result) }
    ensures tells { OnOk result (IsSome log.old → IsSome log.new) }
    ensures cause { HasCause tally.old.faults tally.new.faults result }
    ensures listed { Contains tally.old.failing (next_count tally.old.made) → IsErr result }
    ensures ok { OnOk result (tally.new ≡ with_call tally.old) }
    ensures err { OnErr result (tally.new ≡ with_fault (with_call tally.old)) }
{
    let called = tally.call();
    let kept = log.keep(to, bytes, called.is_ok());
    // A listed call has been counted as a fault, and one fault is one call.
    if called.is_ok() && kept.is_err() {
        return Err(tally.fail());
    }
    called
}
