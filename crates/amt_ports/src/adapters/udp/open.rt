//! Opening the sockets.

ghost use Rattle.std.specs.Prelude.{◌≡◌, true, IfOk};
ghost use Rattle.amt_ports.specs.RealDevices.{answers_may_wait, feed_failed, lines_failed, receivings_failed, replies_failed, sends_failed};

use super::control::UdpControl;
use super::feed::UdpFeed;
use super::link::UdpLink;
use super::options::{ask_for_buffers, ask_for_send_buffer};
use super::sharing::socket_beside;
use super::sources::std_peer;
use super::watch::WatchedSocket;
use amt_values::Peer;
use std::io;
use std::net::{Net, UdpSocket};

// The link at its address and port, and a socket at the other ones. A wait for either ends where the other has
// something.
fn open_both<N: Net>(net: &N, listen: &Peer, other: &Peer) -> io::Result<(UdpLink, WatchedSocket)>
    ensures link { IfOk result (λ opened. (receivings_failed opened.0 ≡ 0) × (sends_failed opened.0 ≡ 0)) }
    ensures waits { IfOk result (λ opened. answers_may_wait opened.0 ≡ true) }
{
    let copies = UdpSocket::bind(net, std_peer(listen))?;
    copies.set_nonblocking(true)?;
    ask_for_send_buffer(&copies)?;
    let link = set_up(socket_beside(&copies)?)?;
    let other = set_up(UdpSocket::bind(net, std_peer(other))?)?;
    let (beside_link, beside_other) = (other.try_clone()?, link.try_clone()?);
    let answers = link.try_clone()?;
    Ok((
        UdpLink::new(link, answers, copies, beside_link),
        WatchedSocket::new(other, beside_other),
    ))
}

/// The link and the feed at these addresses and ports. A port of 0 is one of the system's choice.
///
/// The opening fails where a socket can't be bound, cloned or set.
pub fn open_sockets<N: Net>(net: &N, listen: &Peer, feed: &Peer) -> io::Result<(UdpLink, UdpFeed)>
    ensures link { IfOk result (λ opened. (receivings_failed opened.0 ≡ 0) × (sends_failed opened.0 ≡ 0)) }
    ensures feed { IfOk result (λ opened. feed_failed opened.1 ≡ 0) }
    ensures waits { IfOk result (λ opened. answers_may_wait opened.0 ≡ true) }
{
    let (link, feed) = open_both(net, listen, feed)?;
    Ok((link, UdpFeed::new(feed)))
}

/// The same of a link and a control socket.
pub fn open_gateway_sockets<N: Net>(
    net: &N,
    listen: &Peer,
    control: &Peer,
) -> io::Result<(UdpLink, UdpControl)>
    ensures link { IfOk result (λ opened. (receivings_failed opened.0 ≡ 0) × (sends_failed opened.0 ≡ 0)) }
    ensures control { IfOk result (λ opened. (lines_failed opened.1 ≡ 0) × (replies_failed opened.1 ≡ 0)) }
    ensures waits { IfOk result (λ opened. answers_may_wait opened.0 ≡ true) }
{
    let (link, control) = open_both(net, listen, control)?;
    Ok((link, UdpControl::new(control)))
}

/// A control socket at this address and port, beside a link whose datagrams end its waits.
pub fn open_control<N: Net>(net: &N, control: &Peer, link: &UdpLink) -> io::Result<UdpControl>
    ensures { IfOk result (λ control. (lines_failed control ≡ 0) × (replies_failed control ≡ 0)) }
{
    let own = set_up(UdpSocket::bind(net, std_peer(control))?)?;
    Ok(UdpControl::new(WatchedSocket::new(own, link.beside()?)))
}

fn set_up(socket: UdpSocket) -> io::Result<UdpSocket> {
    socket.set_nonblocking(true)?;
    ask_for_buffers(&socket)?;
    Ok(socket)
}
