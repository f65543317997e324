//! The devices in memory that a case scripts.

mod arrivals;
mod relays;
mod starters;

use crate::failing::{Call, FailingCall, numbers_of};
use crate::script::{Event, read_event};
use amt_ports::{ListedSpawner, MemClock, MemFeed, MemLink, MemOut, MemWords, OutLink};
use amt_values::{Ip, Moment, Peer};
use arrivals::{Receiver, feed_answers, link_answers};
use relay_serving::{Control, CopyCount, MemCopies};
use relays::OfRelay;
use replication_workers::Outs;
use serving_commands::{DeviceSet, GatewayDevices, MemLive, RelayDevices};
use starters::Starter;
use std::alloc::{AllocError, Global};
use std::sync::Wait;
use std::thread::Threads;

/// Starts a relay's workers in threads.
pub type Spawner<'a, R> = ListedSpawner<&'a R, Starter<'a, R>>;

type OfGateway = GatewayDevices<MemLink, MemLink, MemOut, MemClock, MemWords>;

pub type Set<'a, R> = DeviceSet<OfRelay<'a, R>, OfGateway>;

/// Where the case's set of devices is opened.
pub type Sets<'a, R> = MemLive<OfRelay<'a, R>, OfGateway>;

/// What the devices of a case do.
#[derive(Clone, Copy)]
pub struct Script<'a> {
    pub lines: &'a str,
    pub failing: &'a [FailingCall],
}

fn moment_of(line: &str) -> Option<Moment> {
    match read_event(line) {
        Some(Event::Turn(ms) | Event::Moment(ms)) => Moment::new(ms),
        _ => None,
    }
}

impl<'a> Script<'a> {
    fn failing(&self, alloc: Global, call: Call) -> Result<Vec<u64>, AllocError> {
        numbers_of(alloc, self.failing, call)
    }

    fn moments(&self, alloc: Global) -> Result<Vec<Moment>, AllocError> {
        let mut moments = Vec::new(alloc);
        for line in self.lines.lines() {
            if let Some(moment) = moment_of(line) {
                moments.push(moment)?;
            }
        }
        Ok(moments)
    }

    fn words(&self, alloc: Global) -> Result<Vec<u64>, AllocError> {
        let mut words = Vec::new(alloc);
        for line in self.lines.lines() {
            if let Some(Event::Word(word)) = read_event(line) {
                words.push(word)?;
            }
        }
        Ok(words)
    }

    // One, unless it says how many.
    fn outs(&self) -> u8 {
        let mut outs = 1;
        for line in self.lines.lines() {
            if let Some(Event::Outs(count)) = read_event(line) {
                outs = count;
            }
        }
        outs
    }
}

fn link_of(alloc: Global, script: Script<'_>) -> Result<MemLink, AllocError> {
    let answers = link_answers(alloc, Receiver::Link, script.lines)?;
    let receivings = script.failing(alloc, Call::Receive)?;
    let sends = script.failing(alloc, Call::Send)?;
    Ok(MemLink::failing(alloc, answers, receivings, sends))
}

// Whether the line wants a control socket, which a relay may lack.
fn asks(line: &str) -> bool {
    matches!(
        read_event(line),
        Some(Event::Control | Event::Ask(_, _) | Event::ControlCloses)
    )
}

fn copies_of(alloc: Global, script: Script<'_>) -> Result<MemCopies, AllocError> {
    let mut counts = Vec::new(alloc);
    for line in script.lines.lines() {
        if let Some(Event::Copies(sent, unsent)) = read_event(line) {
            counts.push(CopyCount { sent, unsent })?;
        }
    }
    Ok(MemCopies::new(counts))
}

fn control_of(alloc: Global, script: Script<'_>) -> Result<MemLink, AllocError> {
    let answers = link_answers(alloc, Receiver::Control, script.lines)?;
    let receivings = script.failing(alloc, Call::Control)?;
    let sends = script.failing(alloc, Call::Answer)?;
    Ok(MemLink::failing(alloc, answers, receivings, sends))
}

// A relay has one only where the script wants it.
fn control_of_relay(
    alloc: Global,
    script: Script<'_>,
) -> Result<Option<Control<MemLink, MemCopies>>, AllocError> {
    if !script.lines.lines().any(asks) {
        return Ok(None);
    }
    Ok(Some(Control {
        link: control_of(alloc, script)?,
        copies: copies_of(alloc, script)?,
    }))
}

fn feed_of(alloc: Global, script: Script<'_>) -> Result<MemFeed, AllocError> {
    let answers = feed_answers(alloc, script.lines)?;
    Ok(MemFeed::failing(answers, script.failing(alloc, Call::Feed)?))
}

fn words_of(alloc: Global, script: Script<'_>) -> Result<MemWords, AllocError> {
    let words = script.words(alloc)?;
    Ok(MemWords::failing(words, script.failing(alloc, Call::Word)?))
}

/// The number of a link out: that of the port to which it sent before the run.
pub fn number_of(out: &MemOut) -> u16 {
    match out.tried().first() {
        Some(mark) => mark.to.port,
        None => 0,
    }
}

// The send by which it is known again is no call of the case.
fn out_of(alloc: Global, script: Script<'_>, number: u8) -> Result<MemOut, AllocError> {
    let mut failing = script.failing(alloc, Call::Out)?;
    for call in &mut failing {
        *call = call.saturating_add(1);
    }
    let mut out = MemOut::failing(alloc, failing);
    let mark = Peer {
        ip: Ip::V4(0),
        port: u16::from(number),
    };
    match out.send(&mark, &[]) {
        Ok(()) => Ok(out),
        Err(_) => Err(AllocError),
    }
}

fn outs_of(alloc: Global, script: Script<'_>) -> Result<Outs<MemOut>, AllocError> {
    let mut outs = Vec::new(alloc);
    for number in 1..=script.outs() {
        outs.push(out_of(alloc, script, number)?)?;
    }
    Ok(Outs::from(outs))
}

fn spawner_of<'a, R: Threads>(
    rt: &'a R,
    alloc: Global,
    script: Script<'_>,
) -> Result<Spawner<'a, R>, AllocError> {
    let refused = script.failing(alloc, Call::Start)?;
    Ok(ListedSpawner::new(rt, Starter { rt }, refused))
}

// What both ends have: a link, and what tells moments and words.
#[derive(Drop)]
struct Givers {
    link: MemLink,
    clock: MemClock,
    words: MemWords,
}

fn givers_of(alloc: Global, script: Script<'_>) -> Result<Givers, AllocError> {
    let clock = MemClock::new(script.moments(alloc)?);
    let words = words_of(alloc, script)?;
    let link = link_of(alloc, script)?;
    Ok(Givers { link, clock, words })
}

fn relay_of<'a, R: Threads + Wait + 'static>(
    rt: &'a R,
    alloc: Global,
    script: Script<'_>,
) -> Result<OfRelay<'a, R>, AllocError> {
    let spawner = spawner_of(rt, alloc, script)?;
    let outs = outs_of(alloc, script)?;
    let control = control_of_relay(alloc, script)?;
    let feed = feed_of(alloc, script)?;
    let givers = givers_of(alloc, script)?;
    Ok(OfRelay {
        devices: RelayDevices {
            link: givers.link,
            feed,
            clock: givers.clock,
            words: givers.words,
            outs,
            spawner,
            control,
        },
    })
}

fn gateway_of(alloc: Global, script: Script<'_>) -> Result<OfGateway, AllocError> {
    let out = out_of(alloc, script, 1)?;
    let control = control_of(alloc, script)?;
    let givers = givers_of(alloc, script)?;
    Ok(GatewayDevices {
        link: givers.link,
        control,
        out,
        clock: givers.clock,
        words: givers.words,
    })
}

fn set_of<'a, R: Threads + Wait + 'static>(
    rt: &'a R,
    alloc: Global,
    command: &str,
    script: Script<'_>,
) -> Result<Set<'a, R>, AllocError> {
    if command == "gateway" {
        Ok(DeviceSet::Gateway(gateway_of(alloc, script)?))
    } else {
        Ok(DeviceSet::Relay(relay_of(rt, alloc, script)?))
    }
}

/// A place where one set is opened: a gateway's for that command, and else a relay's. Without a script there
/// is none.
pub fn sets_for<'a, R: Threads + Wait + 'static>(
    rt: &'a R,
    alloc: Global,
    command: &str,
    script: Script<'_>,
) -> Result<Sets<'a, R>, AllocError> {
    let mut sets = Vec::new(alloc);
    if !script.lines.is_empty() {
        sets.push(set_of(rt, alloc, command, script)?)?;
    }
    Ok(MemLive::failing(alloc, sets, script.failing(alloc, Call::Open)?))
}
