//! The datagrams of a reply.

ghost use Rattle.std.{specs.Prelude.{◌≡◌, ◌++◌, [], Bool, map, OnOk}, proofs.Props.{props}};
ghost use Rattle.amt_messages.specs.Messages.{IsSendable};
ghost use Rattle.gateway_machine.specs.Sends.{AreShort, datagram_of, request_to, to_relay};

use crate::request::write_request;
use crate::settings::GatewaySettings;
use crate::step::{PeerSend, PeerSends};
use amt_messages::{Message, encode};
use amt_values::Peer;
use std::alloc::{AllocError, Global};

/// Datagrams to send, in order, none of them longer than a UDP payload.
#[derive(Debug, Drop)]
pub struct ShortSends {
    pub datagrams: PeerSends,
    ghost short: { AreShort datagrams } by { Prim.hlevel props },
}

impl ShortSends {
    pub fn new(alloc: Global) -> ShortSends
        ensures { result.datagrams ≡ [] }
    {
        ShortSends {
            datagrams: PeerSends::new(alloc),
        }
    }

    /// Puts a message at the end, to this peer, if there is one: the law states_have_relays says when a
    /// relay is known.
    pub fn push(
        &mut self,
        alloc: Global,
        to: Option<Peer>,
        message: &Message,
    ) -> Result<(), AllocError>
        requires { IsSendable message.now }
        ensures { (full : Bool) → OnOk result (self.new.datagrams
            ≡ self.old.datagrams ++ map datagram_of (to_relay to full message.now)) }
    {
        let Some(to) = to else {
            return Ok(());
        };
        let bytes = encode(alloc, message)?;
        self.datagrams.push(PeerSend { to, bytes })
    }

    /// Puts a Request of the gateway's family with this nonce at the end, to the relay, if one is known.
    pub fn push_request(
        &mut self,
        alloc: Global,
        to: Option<Peer>,
        settings: &GatewaySettings,
        nonce: u32,
    ) -> Result<(), AllocError>
        ensures { OnOk result (self.new.datagrams
            ≡ self.old.datagrams ++ map datagram_of (request_to to settings.now nonce)) }
    {
        let Some(to) = to else {
            return Ok(());
        };
        let bytes = write_request(alloc, settings.v6, nonce, settings.linux_relay)?;
        self.datagrams.push(PeerSend { to, bytes })
    }
}
