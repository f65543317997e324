//! The list of those who are to be answered after a turn.
ghost use Rattle.std.specs.Prelude.{◌≡◌, ◌<◌, [], ◌∷◌, ◌++◌, length, false, IfOk};
ghost use Rattle.std.specs.List.{list_any};
ghost use Rattle.gateway_serving.specs.{Askers.{ask_leave, ask_stop, askers_among, is_leave, is_stop}, Answering.{waiting_in}, Turns.{Asks, Bad, a_line}};

use super::{Asker, Askers};
use amt_ports::BURST;
use amt_values::Peer;
use control_lines::{GatewayAsking, is_answer};
use script_lines::Reason;
use std::alloc::{AllocError, Global};

// Whether it asks that the run ends.
fn is_stop(reading: &Result<GatewayAsking, Reason>) -> bool
    ensures { result ≡ is_stop reading.now }
{
    match reading {
        Ok(GatewayAsking::Stop | GatewayAsking::StopLeave) => true,
        Ok(GatewayAsking::Counts | GatewayAsking::Show) | Err(_) => false,
    }
}

// Whether it asks that all sockets leave their groups.
fn is_leave(reading: &Result<GatewayAsking, Reason>) -> bool
    ensures { result ≡ is_leave reading.now }
{
    match reading {
        Ok(GatewayAsking::StopLeave) => true,
        Ok(GatewayAsking::Counts | GatewayAsking::Show | GatewayAsking::Stop) | Err(_) => false,
    }
}

impl Askers {
    /// Nobody, and room for as many as a turn has lines.
    pub(crate) fn new(alloc: Global) -> Result<Askers, AllocError>
        ensures { IfOk result (λ askers. waiting_in askers ≡ []) }
    {
        Ok(Askers {
            list: Vec::with_capacity(alloc, BURST as usize)?,
        })
    }

    pub(crate) fn as_slice(&self) -> &[Asker]
        ensures { result.now ≡ waiting_in self.now }
    {
        self.list.as_slice()
    }

    /// Nobody is to be answered any more.
    pub(crate) fn clear(&mut self)
        ensures { waiting_in self.new ≡ [] }
    {
        self.list.clear();
    }

    /// Adds somebody.
    fn push(&mut self, asker: Asker)
        requires room { length (waiting_in self.old) < 64 }
        ensures { waiting_in self.new ≡ waiting_in self.old ++ asker ∷ [] }
    {
        match self.list.push(asker) {
            Ok(()) => {}
            // There is room.
            Err(_) => unreachable!(),
        }
    }

    /// Adds whoever sent a line that asks for this.
    pub(crate) fn add(&mut self, from: Peer, line: &[u8], asking: GatewayAsking)
        requires room { length (waiting_in self.old) < 64 }
        ensures { waiting_in self.new
            ≡ waiting_in self.old ++ askers_among (a_line from line.now (Asks asking) ∷ []) }
    {
        self.push(Asker {
            from,
            reading: Ok(asking),
        });
    }

    /// Adds whoever sent a line that is bad for this reason, unless the line is an answer itself.
    pub(crate) fn add_bad(&mut self, from: Peer, line: &[u8], reason: Reason)
        requires room { length (waiting_in self.old) < 64 }
        ensures { waiting_in self.new
            ≡ waiting_in self.old ++ askers_among (a_line from line.now (Bad reason) ∷ []) }
    {
        if is_answer(line) {
            return;
        }
        self.push(Asker {
            from,
            reading: Err(reason),
        });
    }

    /// Whether somebody asks that the run ends.
    pub(crate) fn ask_stop(&self) -> bool
        ensures { result ≡ ask_stop (waiting_in self.now) }
    {
        for asker in &self.list {
            if is_stop(&asker.reading) {
                return true;
            }
        }
        false
    }

    /// Whether somebody asks that all sockets leave their groups.
    pub(crate) fn ask_leave(&self) -> bool
        ensures { result ≡ ask_leave (waiting_in self.now) }
    {
        for asker in &self.list {
            if is_leave(&asker.reading) {
                return true;
            }
        }
        false
    }
}
