//! What comes to the link, to the feed and to the control socket of a case, turn by turn.
ghost use Rattle.std.specs.Prelude.{◌≤◌, All, IfOk, IfSome, OnOk, length};
ghost use Rattle.amt_ports.specs.Arrivals.{IsShortAnswer, IsShortFeedAnswer};

use crate::cases::append_escaped;
use crate::script::{Event, read_event};
use amt_ports::{FeedAnswer, LinkAnswer};
use amt_values::Bytes;
use std::alloc::{AllocError, Global};
use std::collections::VecDeque;

// After so many answers in a turn a device isn't asked again in it.
const BURST: usize = 64;

// A turn that has begun ends with the answer that nothing is there, unless it had as many as it asks for.
fn ends_in_nothing(began: Option<usize>, answers: usize) -> bool {
    match began {
        Some(before) => answers.saturating_sub(before) < BURST,
        None => false,
    }
}

// A script has no longer octets.
fn short(octets: Bytes) -> Result<Bytes, AllocError>
    ensures { IfOk result (λ octets. length octets ≤ 65535) }
{
    if octets.len() <= 65_535 {
        Ok(octets)
    } else {
        Err(AllocError)
    }
}

fn octets_of(alloc: Global, digits: &str) -> Result<Bytes, AllocError> {
    match hex::decode(alloc, digits.as_bytes()) {
        Ok(octets) => Ok(Bytes::from(octets)),
        Err(_) => Err(AllocError),
    }
}

fn line_octets(alloc: Global, line: &str) -> Result<Bytes, AllocError> {
    let mut octets = Bytes::new(alloc);
    match append_escaped(&mut octets, line) {
        Ok(()) => Ok(octets),
        Err(_) => Err(AllocError),
    }
}

fn first_and_zeros(alloc: Global, first: u8, length: u16) -> Result<Bytes, AllocError> {
    let mut octets = Bytes::copied(alloc, &[first])?;
    for _ in 1..length {
        octets.push(0)?;
    }
    Ok(octets)
}

/// What datagrams come to with their source.
#[derive(Clone, Copy, PartialEq, Eq)]
pub enum Receiver {
    Link,
    Control,
}

// How many answers of it an event makes.
fn heard(at: Receiver, event: &Event) -> u8 {
    match (at, event) {
        (Receiver::Link, Event::Datagram(_, _) | Event::LinkCloses) => 1,
        (Receiver::Link, Event::Sweep(_, _, _)) => 64,
        (Receiver::Control, Event::Ask(_, _) | Event::ControlCloses) => 1,
        _ => 0,
    }
}

fn link_answer(alloc: Global, event: &Event, number: u8) -> Result<LinkAnswer, AllocError>
    ensures { IfOk result (λ answer. IsShortAnswer answer) }
{
    match event {
        Event::Datagram(from, digits) => {
            Ok(LinkAnswer::Datagram(*from, short(octets_of(alloc, digits)?)?))
        }
        Event::Sweep(from, first, length) => {
            let octets = first_and_zeros(alloc, first.wrapping_add(number), *length)?;
            Ok(LinkAnswer::Datagram(*from, short(octets)?))
        }
        Event::Ask(from, line) => {
            Ok(LinkAnswer::Datagram(*from, short(line_octets(alloc, line)?)?))
        }
        Event::LinkCloses | Event::ControlCloses => Ok(LinkAnswer::Closed),
        _ => Ok(LinkAnswer::Nothing),
    }
}

fn hear(
    alloc: Global,
    at: Receiver,
    answers: &mut VecDeque<LinkAnswer>,
    began: &mut Option<usize>,
    line: &str,
) -> Result<(), AllocError>
    requires { All IsShortAnswer answers.old.items }
    ensures { OnOk result (All IsShortAnswer answers.new.items) }
{
    let Some(event) = read_event(line) else {
        return Ok(());
    };
    if let Event::Turn(_) = event {
        if ends_in_nothing(*began, answers.len()) {
            answers.push_back(LinkAnswer::Nothing)?;
        }
        *began = Some(answers.len());
    }
    for number in 0..heard(at, &event) {
        answers.push_back(link_answer(alloc, &event, number)?)?;
    }
    Ok(())
}

/// What the receiver answers by the script. After that it is closed.
pub fn link_answers(
    alloc: Global,
    at: Receiver,
    script: &str,
) -> Result<VecDeque<LinkAnswer>, AllocError>
    ensures { IfOk result (λ answers. All IsShortAnswer answers.items) }
{
    let mut answers = VecDeque::new(alloc);
    let mut began = None;
    for line in script.lines() {
        hear(alloc, at, &mut answers, &mut began, line)?;
    }
    if ends_in_nothing(began, answers.len()) {
        answers.push_back(LinkAnswer::Nothing)?;
    }
    Ok(answers)
}

fn feed_answer(alloc: Global, event: &Event) -> Result<Option<FeedAnswer>, AllocError>
    ensures { IfOk result (λ answer. IfSome answer IsShortFeedAnswer) }
{
    match event {
        Event::Packet(digits) => { Ok(Some(FeedAnswer::Packet(short(octets_of(alloc, digits)?)?))) }
        Event::FeedCloses => Ok(Some(FeedAnswer::Closed)),
        _ => Ok(None),
    }
}

fn feed(
    alloc: Global,
    answers: &mut VecDeque<FeedAnswer>,
    began: &mut Option<usize>,
    line: &str,
) -> Result<(), AllocError>
    requires { All IsShortFeedAnswer answers.old.items }
    ensures { OnOk result (All IsShortFeedAnswer answers.new.items) }
{
    let Some(event) = read_event(line) else {
        return Ok(());
    };
    if let Event::Turn(_) = event {
        if ends_in_nothing(*began, answers.len()) {
            answers.push_back(FeedAnswer::Nothing)?;
        }
        *began = Some(answers.len());
    }
    if let Some(answer) = feed_answer(alloc, &event)? {
        answers.push_back(answer)?;
    }
    Ok(())
}

/// What the feed answers by the script. After that it is closed.
pub fn feed_answers(alloc: Global, script: &str) -> Result<VecDeque<FeedAnswer>, AllocError>
    ensures { IfOk result (λ answers. All IsShortFeedAnswer answers.items) }
{
    let mut answers = VecDeque::new(alloc);
    let mut began = None;
    for line in script.lines() {
        feed(alloc, &mut answers, &mut began, line)?;
    }
    if ends_in_nothing(began, answers.len()) {
        answers.push_back(FeedAnswer::Nothing)?;
    }
    Ok(answers)
}
