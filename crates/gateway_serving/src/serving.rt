//! A whole run of a gateway.
ghost use Rattle.amt_ports.specs.Devices.{WaitsBriefly, link_at, out_at, words_at};
ghost use Rattle.gateway_serving.specs.{Devices.{devices_seen}, Serving.{Serves}, Settings.{AreTurns, IsLawfulConfig}};

use crate::askers::Askers;
use crate::served::GatewayServed;
use crate::server::Server;
use amt_config::GatewayConfig;
use amt_ports::{BUFFER, Clock, End, Link, OutLink, Words};
use std::alloc::Global;

/// Runs a gateway over these devices (RFC 7450, section 4.1.2).
///
/// It draws one word as the first nonce, takes one moment of the clock, and opens the joins of its configuration;
/// where memory has no room for the gateway or for a join the run ends. Each turn then draws one word as the next
/// nonce and takes one moment; takes what the link has, until it has nothing and at most 64 times; and takes the
/// lines of the control in the same way. A line that makes a socket call is answered by nothing. What memory refuses in a
/// turn is counted and isn't an event.
///
/// After each whole turn those who sent a line that asks for something, or is bad, are answered, each alone and in order.
/// `stop` and `stop leave` end the run then; by `stop leave` all sockets leave their groups before. A line that is an
/// answer itself is answered by nothing, so that two controls never answer one another.
pub fn serve_gateway<L: Link, K: Link, O: OutLink, C: Clock, W: Words>(
    alloc: Global,
    config: &GatewayConfig,
    turns: u64,
    link: &mut L,
    control: &mut K,
    out: &mut O,
    clock: &mut C,
    words: &mut W,
) -> GatewayServed
    requires config { IsLawfulConfig config.now }
    requires turns { AreTurns turns }
    ensures serves { ∥ Serves config.now turns
        (devices_seen (C.given clock.old) (words_at W.Words words.old) (link_at L.Link link.old) (link_at K.Link control.old) (out_at O.OutLink out.old))
        (devices_seen (C.given clock.new) (words_at W.Words words.new) (link_at L.Link link.new) (link_at K.Link control.new) (out_at O.OutLink out.new))
        result ∥₁ }

    // No receiving is asked to wait for longer: a turn isn't held up by a device that has nothing.
    ensures link_waits { WaitsBriefly (L.longest_wait link.old) (L.longest_wait link.new) }
    ensures control_waits { WaitsBriefly (K.longest_wait control.old) (K.longest_wait control.new) }
{
    let Ok(word) = words.word() else {
        return GatewayServed::unused(End::WordsFault);
    };
    let Ok(mut buf) = Vec::from_elem(alloc, 0, BUFFER) else {
        return GatewayServed::unused(End::Memory);
    };
    let Ok(mut askers) = Askers::new(alloc) else {
        return GatewayServed::unused(End::Memory);
    };
    let Ok(mut server) = Server::start(alloc, config, word) else {
        return GatewayServed::unused(End::Memory);
    };
    let Ok(()) = server.open(alloc, config.joins.as_slice(), clock, link, out) else {
        return GatewayServed::of(End::Memory, 0, server.counts());
    };
    let (end, done) = server.run(
        alloc,
        turns,
        clock,
        words,
        link,
        control,
        out,
        buf.as_mut_slice(),
        &mut askers,
    );
    GatewayServed::of(end, done, server.counts())
}
