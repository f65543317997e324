//! Addresses and peers, put at the end of a text.

ghost use Rattle.std.specs.Prelude.{◌≡◌, ◌++◌, decimal, OnOk};
ghost use Rattle.amt_values.specs.Text.{ip_text, peer_text, v4_text};

use amt_values::{Bytes, Ip, Peer, append_numeral};
use std::alloc::AllocError;

// The decimal digits of an octet. There are four in most addresses that are printed, and for three
// digits or fewer a push each costs less than `append_numeral`, which copies them.
#[tactic(auto, using(crate::proofs::OctetDigits::one_digit))]
fn append_octet(text: &mut Bytes, octet: u8) -> Result<(), AllocError>
    ensures { OnOk result (text.new ≡ text.old ++ decimal octet) }
{
    if octet < 10 {
        return text.push(b'0' + octet);
    }
    if octet < 100 {
        text.push(b'0' + octet / 10)?;
        return text.push(b'0' + octet % 10);
    }
    text.push(b'0' + octet / 100)?;
    text.push(b'0' + octet / 10 % 10)?;
    text.push(b'0' + octet % 10)
}

fn append_v4(text: &mut Bytes, number: u32) -> Result<(), AllocError>
    ensures { OnOk result (text.new ≡ text.old ++ v4_text number) }
{
    let octets = number.to_be_bytes();
    append_octet(text, octets[0])?;
    text.push(b'.')?;
    append_octet(text, octets[1])?;
    text.push(b'.')?;
    append_octet(text, octets[2])?;
    text.push(b'.')?;
    append_octet(text, octets[3])
}

/// Puts an address at the end, as `Ip` prints it. An IPv4 address goes there digit by digit, which
/// costs a part of what a formatter does.
pub fn append_ip(text: &mut Bytes, ip: &Ip) -> Result<(), AllocError>
    ensures { OnOk result (text.new ≡ text.old ++ ip_text ip.now) }
{
    match *ip {
        Ip::V4(number) => append_v4(text, number),
        Ip::V6(_) => write!(text, "{ip}"),
    }
}

/// Puts a peer at the end, as `Peer` prints it: `ADDRESS:PORT`, or `[ADDRESS]:PORT` for IPv6.
pub fn append_peer(text: &mut Bytes, peer: &Peer) -> Result<(), AllocError>
    ensures { OnOk result (text.new ≡ text.old ++ peer_text peer.now) }
{
    match peer.ip {
        Ip::V4(number) => {
            append_v4(text, number)?;
            text.push(b':')?;
            append_numeral(text, u64::from(peer.port))
        }
        Ip::V6(_) => write!(text, "{peer}"),
    }
}
