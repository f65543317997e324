//! A worker's end, at the address and port of the listening socket.

ghost use Rattle.std.specs.Prelude.{◌≡◌, true, None, OnOk, OnErr};
ghost use Rattle.amt_ports.specs.{Causes.{HasCause}, RealDevices.{copies_may_wait, out_failed}};

use super::outlet::Outlet;
use crate::fault::count_fault;
use crate::{Failed, OutLink};
use amt_values::Peer;
use std::net::UdpSocket;

/// An end that sends beside a link: what it sends comes from the link's address and port.
///
/// A copy that finds no room waits for it once. After one that found none in that time none waits until one
/// was sent.
#[derive(Debug, Drop)]
pub struct UdpOut {
    outlet: Outlet<UdpSocket>,
    faults: u64,
}

impl UdpOut {
    pub(crate) fn new(socket: UdpSocket) -> Self
        ensures { (out_failed result ≡ 0) × (copies_may_wait result ≡ true) }
    {
        UdpOut {
            outlet: Outlet::new(socket),
            faults: 0,
        }
    }

    /// How often a send has failed.
    pub fn faults(&self) -> u64
        ensures { result ≡ out_failed self.now }
    {
        self.faults
    }
}

impl OutLink for UdpOut {
    ghost tried = { λ _. None };

    ghost faults = { out_failed };

    fn send(&mut self, to: &Peer, bytes: &[u8]) -> Result<(), Failed>
        ensures cause { HasCause (out_failed self.old) (out_failed self.new) result }

        ensures again { OnOk result (copies_may_wait self.new ≡ true) }
        ensures spent { OnErr result
            (copies_may_wait self.new ≡ true → copies_may_wait self.old ≡ true) }
    {
        match self.outlet.send_copy(to, bytes) {
            Ok(true) => Ok(()),
            _ => Err(count_fault(&mut self.faults)),
        }
    }
}
