//! A whole capture is read here.

ghost use Rattle.std.specs.Prelude.{◌≡◌, ◌≢◌, ◌≤◌, ◌<◌, ◌+◌, length, Ok, Err, None, Some, IfOk, IfErr, IfSome, IfNone};
ghost use Rattle.amt_pcap.specs.{declared.capture.{Capture.{Capture as CaptureValue}, CaptureFault.{CaptureFault as CaptureFaultValue}}, Capture.{IsCapture, IsHead, first_fault, item_at, moment_at, packet_of, record_end}, Texts.{HasShortPackets}};

use crate::capture::{Capture, CaptureFault, CapturedItems, Item, Skip};
use crate::format::{Format, link_type, long_at, read_head};
use crate::packet::packet_of;
use amt_values::{Bytes, Moment};
use std::alloc::{AllocError, Global};

// The end of the record at a place, if it is there as a whole.
fn record_end(format: Format, bytes: &[u8], at: usize) -> Option<usize>
    requires few { length bytes.now ≤ 16777216 }
    requires within { at ≤ length bytes.now }
    ensures some { IfSome result (λ end. (end ≡ record_end format bytes.now at) × (end ≤ length bytes.now)) }
    ensures none { IfNone result (length bytes.now < record_end format bytes.now at) }
{
    if bytes.len() - at < 16 {
        return None;
    }
    let count = long_at(format.order, bytes, at + 8) as usize;
    if bytes.len() - at - 16 < count {
        return None;
    }
    Some(at + 16 + count)
}

// The moment of the record at a place.
fn moment_at(format: Format, bytes: &[u8], at: usize) -> Moment
    requires units { 0 < format.units }
    requires within { at + 16 ≤ length bytes.now }
    ensures { result ≡ moment_at format bytes.now at }
{
    let seconds = u64::from(long_at(format.order, bytes, at));
    let fraction = long_at(format.order, bytes, at + 4) / format.units;
    Moment::new(seconds * 1000 + u64::from(fraction)).unwrap()
}

// The packet in what was captured of a link of this type, of that many octets originally.
fn read_packet(
    alloc: Global,
    link: u16,
    original: u32,
    captured: &[u8],
) -> Result<Result<Bytes, Skip>, AllocError>
    requires { length captured.now ≤ 16777216 }
    ensures { IfOk result (λ packet. packet ≡ packet_of link original captured.now) }
{
    match packet_of(link, original, captured) {
        Ok(packet) => Ok(Ok(Bytes::copied(alloc, packet)?)),
        Err(skip) => Ok(Err(skip)),
    }
}

// What the record at a place holds, which ends there.
fn read_item(
    alloc: Global,
    format: Format,
    bytes: &[u8],
    at: usize,
    end: usize,
) -> Result<Item, AllocError>
    requires few { length bytes.now ≤ 16777216 }
    requires head { IsHead bytes.now format }
    requires record { end ≡ record_end format bytes.now at }
    requires within { end ≤ length bytes.now }
    ensures { IfOk result (λ item. item ≡ item_at format bytes.now at) }
{
    let (_, rest) = bytes.split_at(at + 16);
    let (captured, _) = rest.split_at(end - at - 16);
    let link = link_type(format.order, bytes);
    let original = long_at(format.order, bytes, at + 12);
    let packet = read_packet(alloc, link, original, captured)?;
    Ok(Item {
        at: moment_at(format, bytes, at),
        packet,
    })
}

// The records after the head, and what follows them.
fn read_records(alloc: Global, format: Format, bytes: &[u8]) -> Result<Capture, AllocError>
    requires few { length bytes.now ≤ 16777216 }
    requires head { IsHead bytes.now format }
    ensures { IfOk result (IsCapture bytes.now) }
{
    let mut items = CapturedItems::new(alloc);
    let mut at = 24;
    while let Some(end) = record_end(format, bytes, at) {
        items.push(read_item(alloc, format, bytes, at, end)?)?;
        at = end;
    }
    Ok(Capture {
        items,
        tail: (bytes.len() - at) as u32,
    })
}

/// Reads a capture of at most 16,777,216 octets: the classic format of libpcap, version 2.4, of Ethernet frames or of
/// IP packets.
///
/// The faults are those of the head, in the order of `CaptureFault`; a record that isn't there as a whole is the tail.
pub fn read_capture(alloc: Global, bytes: &[u8]) -> Result<Capture, CaptureFault>
    requires { length bytes.now ≤ 16777216 }
    ensures found { IfOk result (IsCapture bytes.now) }
    ensures only { (capture : CaptureValue) → IsCapture bytes.now capture
        → result ≢ Err CaptureFaultValue.Memory → result ≡ Ok capture }
    ensures refused { IfErr result (λ fault. fault ≢ CaptureFaultValue.Memory
        → first_fault bytes.now ≡ Some fault) }
    ensures fault { (fault : CaptureFaultValue) → first_fault bytes.now ≡ Some fault
        → result ≢ Err CaptureFaultValue.Memory → result ≡ Err fault }
    ensures memory { result ≡ Err CaptureFaultValue.Memory → first_fault bytes.now ≡ None }
    ensures short { IfOk result HasShortPackets }
{
    match read_head(bytes) {
        Ok(format) => match read_records(alloc, format, bytes) {
            Ok(capture) => Ok(capture),
            Err(_) => Err(CaptureFault::Memory),
        },
        Err(fault) => Err(fault),
    }
}
