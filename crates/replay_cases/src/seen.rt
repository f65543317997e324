//! What the devices of a case saw, as lines of a case.

use crate::devices::{Set, Sets, number_of};
use amt_ports::{MemOut, Tried};
use amt_values::Peer;
use replication_workers::Outs;
use serving_commands::{DeviceSet, Opening};
use std::alloc::{AllocError, Global};
use std::thread::Threads;

// `MARK PEER OCTETS`, and whether the device didn't take it.
fn append_send(
    alloc: Global,
    text: &mut String,
    mark: &str,
    tried: &Tried,
) -> Result<(), AllocError> {
    let octets = hex::encode(alloc, tried.bytes.as_slice())?;
    let fate = if tried.sent { "" } else { " failed" };
    write!(text, "{mark} {} {octets}{fate}\n", tried.to)
}

fn append_sends(
    alloc: Global,
    text: &mut String,
    mark: &str,
    tried: &[Tried],
) -> Result<(), AllocError> {
    for one in tried {
        append_send(alloc, text, mark, one)?;
    }
    Ok(())
}

// What it has sent since its mark.
fn append_out(alloc: Global, text: &mut String, out: &MemOut) -> Result<(), AllocError> {
    let mark = format!(in alloc; "={}", number_of(out))?;
    match out.tried().split_first() {
        Some((_, tried)) => append_sends(alloc, text, mark.as_str(), tried),
        None => Ok(()),
    }
}

fn append_outs(alloc: Global, text: &mut String, outs: &[MemOut]) -> Result<(), AllocError> {
    for out in outs {
        append_out(alloc, text, out)?;
    }
    Ok(())
}

// `=? PEER LINE` for each line of an answer, and whether the device didn't take its datagram.
fn append_answer(alloc: Global, text: &mut String, tried: &Tried) -> Result<(), AllocError> {
    let lines = String::from_utf8_lossy(alloc, tried.bytes.as_slice())?;
    let fate = if tried.sent { "" } else { " failed" };
    for line in lines.lines() {
        write!(text, "=? {} {line}{fate}\n", tried.to)?;
    }
    Ok(())
}

fn append_answers(alloc: Global, text: &mut String, tried: &[Tried]) -> Result<(), AllocError> {
    for one in tried {
        append_answer(alloc, text, one)?;
    }
    Ok(())
}

fn append_set<R>(alloc: Global, text: &mut String, set: &Set<'_, R>) -> Result<(), AllocError> {
    match set {
        DeviceSet::Relay(set) => {
            let devices = &set.devices;
            append_sends(alloc, text, "=", devices.link.tried())?;
            append_outs(alloc, text, devices.outs.as_slice())?;
            match &devices.control {
                Some(control) => append_answers(alloc, text, control.link.tried()),
                None => Ok(()),
            }
        }
        DeviceSet::Gateway(devices) => {
            append_sends(alloc, text, "=", devices.link.tried())?;
            append_out(alloc, text, &devices.out)?;
            append_answers(alloc, text, devices.control.tried())
        }
    }
}

/// What each device that came back tried to send: the link first, then the links out in order, and then what the
/// control socket answered.
pub fn sends_text<R>(alloc: Global, live: &Sets<'_, R>) -> Result<String, AllocError> {
    let mut text = String::new(alloc);
    for set in live.returned() {
        append_set(alloc, &mut text, set)?;
    }
    Ok(text)
}

// Where a control socket is asked for, if one is.
fn append_control(text: &mut String, control: &Option<Peer>) -> Result<(), AllocError> {
    match control {
        Some(peer) => write!(text, " control {peer}"),
        None => Ok(()),
    }
}

// How often an end is to ask itself, if it is, and the end of the line.
fn append_report(text: &mut String, seconds: u32) -> Result<(), AllocError> {
    match seconds {
        0 => text.push_str("\n"),
        _ => write!(text, " report {seconds}\n"),
    }
}

fn append_opening(text: &mut String, opening: &Opening) -> Result<(), AllocError> {
    match opening {
        Opening::Relay {
            listen,
            feed,
            asking,
            slots,
        } => {
            write!(text, "open relay {listen} {feed} {slots}")?;
            append_control(text, &asking.control)?;
            append_report(text, asking.report_seconds)
        }
        Opening::Gateway {
            listen,
            control,
            report_seconds,
        } => {
            write!(text, "open gateway {listen} {control}")?;
            append_report(text, *report_seconds)
        }
    }
}

fn append_numbers(text: &mut String, outs: &Outs<MemOut>) -> Result<(), AllocError> {
    for out in outs.as_slice() {
        write!(text, " {}", number_of(out))?;
    }
    text.push_str("\n")
}

fn append_return<R: Threads>(text: &mut String, set: &Set<'_, R>) -> Result<(), AllocError> {
    match set {
        DeviceSet::Relay(set) => {
            write!(
                text,
                "back relay, {} started, outs",
                set.devices.spawner.starts()
            )?;
            append_numbers(text, &set.devices.outs)
        }
        DeviceSet::Gateway(_) => text.push_str("back gateway\n"),
    }
}

fn append_returns<R: Threads>(text: &mut String, sets: &[Set<'_, R>]) -> Result<(), AllocError> {
    for set in sets {
        append_return(text, set)?;
    }
    Ok(())
}

/// The openings that were asked for, and the sets that came back.
pub fn openings_text<R: Threads>(alloc: Global, live: &Sets<'_, R>) -> Result<String, AllocError> {
    let mut text = String::new(alloc);
    for opening in live.asked() {
        append_opening(&mut text, opening)?;
    }
    append_returns(&mut text, live.returned())?;
    Ok(text)
}
