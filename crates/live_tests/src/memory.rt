//! Clocks, random words, feeds and links in memory. It knows public calls alone.
ghost use Rattle.std.specs.Prelude.{◌≤◌, All, IfOk, length};
ghost use Rattle.amt_ports.specs.Arrivals.{IsShortAnswer, IsShortFeedAnswer};

use amt_ports::*;
use amt_values::{Bytes, Ip, Moment, Peer};
use std::alloc::{AllocError, Global};
use std::collections::VecDeque;

// What three looks at a clock with these moments give.
fn looks(alloc: Global, listed: &[u64]) -> Result<[u64; 3], AllocError> {
    let mut moments = Vec::new(alloc);
    for ms in listed {
        if let Some(moment) = Moment::new(*ms) {
            moments.push(moment)?;
        }
    }
    let mut clock = MemClock::new(moments);
    Ok([clock.now().ms(), clock.now().ms(), clock.now().ms()])
}

// They may go back. A clock with no moment is at 0.
#[test]
fn a_clock_in_memory_gives_its_moments_and_then_the_last_one(rt: HostRuntime) {
    assert!(rt; looks(rt.alloc(), &[9, 3]) == Ok([9, 3, 3]));
    assert!(rt; looks(rt.alloc(), &[]) == Ok([0, 0, 0]));
}

// What four draws answer.
type Draws = [Result<u64, Failed>; 4];

fn draws<W: Words>(words: &mut W) -> Draws {
    [words.word(), words.word(), words.word(), words.word()]
}

// What draws of these words answer where the listed ones fail, and how many failed.
fn listed_draws(
    alloc: Global,
    listed: &[u64],
    failing: &[u64],
) -> Result<(Draws, u64), AllocError> {
    let listed = Vec::from_slice(alloc, listed)?;
    let mut words = MemWords::failing(listed, Vec::from_slice(alloc, failing)?);
    Ok((draws(&mut words), words.faults()))
}

#[test]
fn words_in_memory_are_given_once_and_a_draw_that_fails_takes_none(rt: HostRuntime) {
    let answers = [Ok(11), Err(Failed), Ok(11), Ok(0)];
    assert!(rt; listed_draws(rt.alloc(), &[11, 11], &[2]) == Ok((answers, 1)));
}

// What three receivings of a feed answer: a packet of six octets is listed.
type Feedings = [Result<FeedGot, Failed>; 3];

fn feed_answers(alloc: Global) -> Result<VecDeque<FeedAnswer>, AllocError>
    ensures { IfOk result (λ answers. All IsShortFeedAnswer answers.items) }
{
    let packet = Bytes::copied(alloc, b"packet")?;
    let mut answers = VecDeque::new(alloc);
    answers.push_back(FeedAnswer::Packet(packet))?;
    Ok(answers)
}

fn feedings<F: Feed>(feed: &mut F, buf: &mut [u8]) -> Feedings
    requires { 65536 ≤ length buf.old }
{
    [feed.recv(buf, 1), feed.recv(buf, 1), feed.recv(buf, 1)]
}

// What the receivings answer, where the packet comes.
fn fed<F: Feed>(alloc: Global, feed: &mut F) -> Option<Feedings> {
    let Ok(mut buf) = vec![in alloc; 0u8; 65_536] else {
        return None;
    };
    let answers = feedings(feed, buf.as_mut_slice());
    if !buf.as_slice().starts_with(b"packet") {
        return None;
    }
    Some(answers)
}

fn listed_feedings(alloc: Global, failing: &[u64]) -> Result<(Option<Feedings>, u64), AllocError> {
    let mut feed = MemFeed::failing(feed_answers(alloc)?, Vec::from_slice(alloc, failing)?);
    Ok((fed(alloc, &mut feed), feed.faults()))
}

#[test]
fn a_feed_in_memory_is_closed_at_last_and_a_receiving_that_fails_takes_nothing(rt: HostRuntime) {
    let answers = [Err(Failed), Ok(FeedGot::Packet(6)), Ok(FeedGot::Closed)];
    assert!(rt; listed_feedings(rt.alloc(), &[1]) == Ok((Some(answers), 1)));
}

const PEER: Peer = Peer {
    ip: Ip::V4(0xc633_6407),
    port: 2268,
};

// What three receivings of a link answer: a datagram of five octets is listed.
type Receivings = [Result<Got, Failed>; 3];

fn link_answers(alloc: Global) -> Result<VecDeque<LinkAnswer>, AllocError>
    ensures { IfOk result (λ answers. All IsShortAnswer answers.items) }
{
    let query = Bytes::copied(alloc, b"query")?;
    let mut answers = VecDeque::new(alloc);
    answers.push_back(LinkAnswer::Datagram(PEER, query))?;
    Ok(answers)
}

fn link_of(alloc: Global, receivings: &[u64], sends: &[u64]) -> Result<MemLink, AllocError> {
    let answers = link_answers(alloc)?;
    let receivings = Vec::from_slice(alloc, receivings)?;
    let sends = Vec::from_slice(alloc, sends)?;
    Ok(MemLink::failing(alloc, answers, receivings, sends))
}

fn receivings<L: Link>(link: &mut L, buf: &mut [u8]) -> Receivings
    requires { 65536 ≤ length buf.old }
{
    [link.recv(buf, 1), link.recv(buf, 1), link.recv(buf, 1)]
}

// What the receivings answer where these fail, where the datagram comes, and how many failed.
fn received(alloc: Global, failing: &[u64]) -> Result<Option<(Receivings, u64)>, AllocError> {
    let mut buf = vec![in alloc; 0u8; 65_536]?;
    let mut link = link_of(alloc, failing, &[])?;
    let answers = receivings(&mut link, buf.as_mut_slice());
    if !buf.as_slice().starts_with(b"query") {
        return Ok(None);
    }
    Ok(Some((answers, link.receive_faults())))
}

#[test]
fn a_link_in_memory_is_closed_at_last_and_a_receiving_that_fails_takes_nothing(rt: HostRuntime) {
    let answers = [Ok(Got::Datagram(PEER, 5)), Err(Failed), Ok(Got::Closed)];
    assert!(rt; received(rt.alloc(), &[2]) == Ok(Some((answers, 1))));
}

fn is_tried(tried: &Tried, octets: &[u8], sent: bool) -> bool {
    tried.to == PEER && tried.bytes.as_slice() == octets && tried.sent == sent
}

fn are_tried(tried: &[Tried], sent: &[bool; 3]) -> bool {
    match tried {
        [one, two, three] => {
            is_tried(one, b"one", sent[0])
                && is_tried(two, b"two", sent[1])
                && is_tried(three, b"three", sent[2])
        }
        _ => false,
    }
}

fn sends_by_link<L: Link>(link: &mut L) -> [bool; 3] {
    [
        link.send(&PEER, b"one").is_ok(),
        link.send(&PEER, b"two").is_ok(),
        link.send(&PEER, b"three").is_ok(),
    ]
}

fn sends_by_out<O: OutLink>(out: &mut O) -> [bool; 3] {
    [
        out.send(&PEER, b"one").is_ok(),
        out.send(&PEER, b"two").is_ok(),
        out.send(&PEER, b"three").is_ok(),
    ]
}

// Which sends of the link are sent, where it has kept all of them, and how many failed.
fn sent_by_link(alloc: Global, failing: &[u64]) -> Result<([bool; 3], bool, u64), AllocError> {
    let mut link = link_of(alloc, &[], failing)?;
    let sent = sends_by_link(&mut link);
    Ok((sent, are_tried(link.tried(), &sent), link.send_faults()))
}

fn sent_by_out(alloc: Global, failing: &[u64]) -> Result<([bool; 3], bool, u64), AllocError> {
    let mut out = MemOut::failing(alloc, Vec::from_slice(alloc, failing)?);
    let sent = sends_by_out(&mut out);
    Ok((sent, are_tried(out.tried(), &sent), out.faults()))
}

#[test]
fn links_in_memory_keep_what_was_tried_and_sent_or_not(rt: HostRuntime) {
    let want = Ok(([false, true, false], true, 2));
    assert!(rt; sent_by_link(rt.alloc(), &[1, 3]) == want);
    assert!(rt; sent_by_out(rt.alloc(), &[1, 3]) == want);
}
