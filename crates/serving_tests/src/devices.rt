//! Devices in memory that answer what is listed.
ghost use Rattle.std.specs.Prelude.{◌≤◌, All, IfOk, length};
ghost use Rattle.amt_ports.specs.Arrivals.{IsShortAnswer, IsShortFeedAnswer};

use amt_ports::{FeedAnswer, LinkAnswer, MemClock, MemFeed, MemLink, MemWords};
use amt_values::{Bytes, Moment, Peer};
use std::alloc::{AllocError, Global};
use std::collections::VecDeque;

/// What a receiving finds: nothing, the octets of these digits, or those of this line.
#[derive(Clone, Copy)]
pub enum Answer<'a> {
    Nothing,
    Octets(&'a str),
    Line(&'a str),
}

/// What the devices of a run do: what link and feed answer before they are closed, and the call of each that
/// fails, counted from 1; 0 for none.
#[derive(Clone, Copy)]
pub struct Script<'a> {
    /// Where all datagrams come from.
    pub from: Peer,
    pub heard: &'a [Answer<'a>],
    pub fed: &'a [Answer<'a>],
    pub moments: &'a [u64],
    pub words: &'a [u64],
    pub receiving: u64,
    pub feeding: u64,
    pub drawing: u64,
}

/// All devices of a run but its links out.
#[derive(Drop)]
pub struct Devices<L, F> {
    pub link: L,
    pub feed: F,
    pub clock: MemClock,
    pub words: MemWords,
}

// At most as many octets as a datagram may have.
fn short(octets: Bytes) -> Result<Bytes, AllocError>
    ensures { IfOk result (λ octets. length octets ≤ 65535) }
{
    if octets.len() <= 65_535 {
        Ok(octets)
    } else {
        Err(AllocError)
    }
}

fn octets_of(alloc: Global, digits: &str) -> Result<Bytes, AllocError>
    ensures { IfOk result (λ octets. length octets ≤ 65535) }
{
    match hex::decode(alloc, digits.as_bytes()) {
        Ok(octets) => short(Bytes::from(octets)),
        Err(_) => Err(AllocError),
    }
}

fn line_octets(alloc: Global, line: &str) -> Result<Bytes, AllocError>
    ensures { IfOk result (λ octets. length octets ≤ 65535) }
{
    short(Bytes::copied(alloc, line.as_bytes())?)
}

fn link_answer(alloc: Global, from: Peer, answer: &Answer) -> Result<LinkAnswer, AllocError>
    ensures { IfOk result (λ answer. IsShortAnswer answer) }
{
    match answer {
        Answer::Nothing => Ok(LinkAnswer::Nothing),
        Answer::Octets(digits) => Ok(LinkAnswer::Datagram(from, octets_of(alloc, digits)?)),
        Answer::Line(line) => Ok(LinkAnswer::Datagram(from, line_octets(alloc, line)?)),
    }
}

pub fn link_answers(
    alloc: Global,
    from: Peer,
    list: &[Answer],
) -> Result<VecDeque<LinkAnswer>, AllocError>
    ensures { IfOk result (λ answers. All IsShortAnswer answers.items) }
{
    let mut answers = VecDeque::new(alloc);
    for one in list {
        answers.push_back(link_answer(alloc, from, one)?)?;
    }
    Ok(answers)
}

fn feed_answer(alloc: Global, answer: &Answer) -> Result<FeedAnswer, AllocError>
    ensures { IfOk result (λ answer. IsShortFeedAnswer answer) }
{
    match answer {
        Answer::Nothing => Ok(FeedAnswer::Nothing),
        Answer::Octets(digits) => Ok(FeedAnswer::Packet(octets_of(alloc, digits)?)),
        Answer::Line(line) => Ok(FeedAnswer::Packet(line_octets(alloc, line)?)),
    }
}

fn feed_answers(alloc: Global, list: &[Answer]) -> Result<VecDeque<FeedAnswer>, AllocError>
    ensures { IfOk result (λ answers. All IsShortFeedAnswer answers.items) }
{
    let mut answers = VecDeque::new(alloc);
    for one in list {
        answers.push_back(feed_answer(alloc, one)?)?;
    }
    Ok(answers)
}

fn link_of(alloc: Global, script: &Script) -> Result<MemLink, AllocError> {
    let answers = link_answers(alloc, script.from, script.heard)?;
    let receivings = vec![in alloc; script.receiving]?;
    Ok(MemLink::failing(alloc, answers, receivings, Vec::new(alloc)))
}

fn feed_of(alloc: Global, script: &Script) -> Result<MemFeed, AllocError> {
    let answers = feed_answers(alloc, script.fed)?;
    Ok(MemFeed::failing(answers, vec![in alloc; script.feeding]?))
}

fn clock_of(alloc: Global, list: &[u64]) -> Result<MemClock, AllocError> {
    let mut moments = Vec::new(alloc);
    for ms in list {
        if let Some(moment) = Moment::new(*ms) {
            moments.push(moment)?;
        }
    }
    Ok(MemClock::new(moments))
}

fn words_of(alloc: Global, script: &Script) -> Result<MemWords, AllocError> {
    let words = Vec::from_slice(alloc, script.words)?;
    Ok(MemWords::failing(words, vec![in alloc; script.drawing]?))
}

pub fn devices_of(alloc: Global, script: &Script) -> Result<Devices<MemLink, MemFeed>, AllocError> {
    Ok(Devices {
        link: link_of(alloc, script)?,
        feed: feed_of(alloc, script)?,
        clock: clock_of(alloc, script.moments)?,
        words: words_of(alloc, script)?,
    })
}
