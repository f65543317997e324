//! The lines that script the devices of a case.

use amt_values::{Ip, Moment, Peer, parse_peer};

// Who asks at a control socket where a line doesn't say: 127.0.0.1:40000.
const CALLER: Peer = Peer {
    ip: Ip::V4(0x7f00_0001),
    port: 40_000,
};

/// What a line of a script says.
#[derive(Clone, Copy)]
pub enum Event<'a> {
    /// The clock's next moment in milliseconds, in which a turn begins or not.
    Turn(u64),
    Moment(u64),
    /// The next random word.
    Word(u64),
    /// The link gets a datagram, in hexadecimal digits.
    Datagram(Peer, &'a str),
    /// The link gets 64 datagrams of so many octets: the first octets are this one and the next 63, and all
    /// others are 0.
    Sweep(Peer, u8, u16),
    /// The feed gets a packet, in hexadecimal digits.
    Packet(&'a str),
    /// A relay has a control socket, whether or not a line comes to it.
    Control,
    /// The control socket gets a line from a peer, with escapes.
    Ask(Peer, &'a str),
    /// What a relay's copies came to, when that is asked for the next time.
    Copies(u64, u64),
    LinkCloses,
    FeedCloses,
    ControlCloses,
    /// A relay's set has so many links out.
    Outs(u8),
}

// The most digits of a datagram, and more octets than any line of control has.
const MOST_DIGITS: usize = 131_070;

fn are_octets(digits: &str) -> bool {
    digits.len() % 2 == 0
        && digits.len() <= MOST_DIGITS
        && digits.bytes().all(|digit| digit.is_ascii_hexdigit())
}

// The milliseconds of a moment.
fn read_moment(text: &str) -> Option<u64> {
    let ms = text.parse::<u64>().ok()?;
    match Moment::new(ms) {
        Some(_) => Some(ms),
        None => None,
    }
}

fn read_datagram<'a>(rest: &'a str) -> Option<Event<'a>> {
    let (peer, digits) = rest.split_once(' ').unwrap_or((rest, ""));
    let peer = parse_peer(peer.as_bytes())?;
    if are_octets(digits) {
        Some(Event::Datagram(peer, digits))
    } else {
        None
    }
}

// `PEER FIRST LENGTH`, of which the first octet is in hexadecimal digits.
fn read_sweep<'a>(rest: &'a str) -> Option<Event<'a>> {
    let (peer, rest) = rest.split_once(' ')?;
    let (first, length) = rest.split_once(' ')?;
    Some(Event::Sweep(
        parse_peer(peer.as_bytes())?,
        u8::from_str_radix(first, 16).ok()?,
        length.parse::<u16>().ok()?,
    ))
}

fn read_asking<'a>(rest: &'a str) -> Option<Event<'a>> {
    let (peer, line) = rest.split_once(' ').unwrap_or((rest, ""));
    if line.len() <= MOST_DIGITS {
        Some(Event::Ask(parse_peer(peer.as_bytes())?, line))
    } else {
        None
    }
}

// `SENT UNSENT`.
fn read_copies<'a>(rest: &'a str) -> Option<Event<'a>> {
    let (sent, unsent) = rest.split_once(' ')?;
    Some(Event::Copies(sent.parse::<u64>().ok()?, unsent.parse::<u64>().ok()?))
}

fn read_closing<'a>(device: &str) -> Option<Event<'a>> {
    match device {
        "link" => Some(Event::LinkCloses),
        "feed" => Some(Event::FeedCloses),
        "control" => Some(Event::ControlCloses),
        _ => None,
    }
}

/// What the line says, where it is one of a script.
pub fn read_event<'a>(line: &'a str) -> Option<Event<'a>> {
    let (word, rest) = line.split_once(' ').unwrap_or((line, ""));
    match word {
        "turn" => Some(Event::Turn(read_moment(rest)?)),
        "moment" => Some(Event::Moment(read_moment(rest)?)),
        "word" => Some(Event::Word(u64::from_str_radix(rest, 16).ok()?)),
        "dg" => read_datagram(rest),
        "sweep" => read_sweep(rest),
        "mc" if are_octets(rest) => Some(Event::Packet(rest)),
        "line" if rest.len() <= MOST_DIGITS => Some(Event::Ask(CALLER, rest)),
        "control" if rest.is_empty() => Some(Event::Control),
        "ask" => read_asking(rest),
        "copies" => read_copies(rest),
        "closed" => read_closing(rest),
        "outs" => Some(Event::Outs(rest.parse::<u8>().ok()?)),
        _ => None,
    }
}

/// Each line says something.
pub fn is_script(lines: &str) -> bool {
    lines.lines().all(|line| read_event(line).is_some())
}
