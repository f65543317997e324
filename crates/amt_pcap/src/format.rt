//! The fields of a capture.

ghost use Rattle.std.specs.Prelude.{◌≡◌, ◌+◌, ◌≤◌, length, None, Some, IfOk, IfErr};
ghost use Rattle.amt_pcap.specs.Capture.{IsHead, first_fault, format_of, link_type, number_at};

use crate::capture::CaptureFault;
use amt_values::{u16_at, u32_at};
use byteorder::{ByteOrder, LittleEndian};

/// The order of the octets of a file's fields.
#[derive(Clone, Copy, Debug, PartialEq, Eq)]
pub enum FieldOrder {
    Big,
    Little,
}

/// What a file's magic number says: the order of its fields, and how many units of a record's fraction make a
/// millisecond.
#[derive(Clone, Copy, Debug, PartialEq, Eq)]
pub struct Format {
    pub order: FieldOrder,
    pub units: u32,
}

/// The number of 16 bits that stands at a place.
pub fn short_at(order: FieldOrder, bytes: &[u8], at: usize) -> u16
    requires { at + 2 ≤ length bytes.now }
    ensures { result ≡ number_at order 2 bytes.now at }
{
    match order {
        FieldOrder::Big => u16_at(bytes, at),
        FieldOrder::Little => {
            let (_, field) = bytes.split_at(at);
            LittleEndian::read_u16(field)
        }
    }
}

/// The number of 32 bits that stands at a place.
pub fn long_at(order: FieldOrder, bytes: &[u8], at: usize) -> u32
    requires { at + 4 ≤ length bytes.now }
    ensures { result ≡ number_at order 4 bytes.now at }
{
    match order {
        FieldOrder::Big => u32_at(bytes, at),
        FieldOrder::Little => {
            let (_, field) = bytes.split_at(at);
            LittleEndian::read_u32(field)
        }
    }
}

// The format that a magic number says, if it says one.
fn format_of(magic: u32) -> Option<Format>
    ensures { result ≡ format_of magic }
{
    let (order, units) = match magic {
        0xa1b2_c3d4 => (FieldOrder::Big, 1000),
        0xa1b2_3c4d => (FieldOrder::Big, 1_000_000),
        0xd4c3_b2a1 => (FieldOrder::Little, 1000),
        0x4d3c_b2a1 => (FieldOrder::Little, 1_000_000),
        _ => return None,
    };
    Some(Format { order, units })
}

/// The link type, of which the low 16 bits count.
pub fn link_type(order: FieldOrder, bytes: &[u8]) -> u16
    requires { 24 ≤ length bytes.now }
    ensures { result ≡ link_type order bytes.now }
{
    (long_at(order, bytes, 20) & 0xffff) as u16
}

/// The format of a file by its head, or the first thing that is wrong with it.
pub fn read_head(bytes: &[u8]) -> Result<Format, CaptureFault>
    requires { length bytes.now ≤ 16777216 }
    ensures head { IfOk result (IsHead bytes.now) }
    ensures none { IfOk result (λ format. first_fault bytes.now ≡ None) }
    ensures fault { IfErr result (λ fault. first_fault bytes.now ≡ Some fault) }
{
    if bytes.len() < 24 {
        return Err(CaptureFault::Short(24, bytes.len() as u32));
    }
    let magic = u32_at(bytes, 0);
    let Some(format) = format_of(magic) else {
        return Err(CaptureFault::Magic(magic));
    };
    let (major, minor) = (
        short_at(format.order, bytes, 4),
        short_at(format.order, bytes, 6),
    );
    if major != 2 || minor != 4 {
        return Err(CaptureFault::Version(major, minor));
    }
    let link = link_type(format.order, bytes);
    if link != 1 && link != 101 {
        return Err(CaptureFault::LinkType(link));
    }
    Ok(format)
}
