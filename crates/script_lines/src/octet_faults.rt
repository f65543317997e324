//! What is wrong with octets that come in. It knows no machine and no script.

ghost use Rattle.std.specs.Prelude.{◌≡◌, ◌++◌, OnOk};
ghost use Rattle.script_lines.specs.FaultTexts.{head_text, inner_text, refusal_text, report_text, sum_text, sums_text};

use crate::text::append_hex;
use amt_messages::Refused;
use amt_values::Bytes;
use inner_datagrams::{HeadFault, InnerFault};
use source_filter::ReportFault;
use std::alloc::AllocError;

/// Why octets are no message.
pub fn append_refusal(text: &mut Bytes, refusal: &Refused) -> Result<(), AllocError>
    ensures { OnOk result (text.new ≡ text.old ++ refusal_text refusal.now) }
{
    match *refusal {
        Refused::Empty => text.append(b"empty"),
        Refused::Version(version) => write!(text, "version {version}"),
        Refused::Kind(kind) => write!(text, "kind {kind}"),
        Refused::NoInner => text.append(b"noinner"),
        Refused::Short(need, have) => write!(text, "short {need} {have}"),
        Refused::Long(need, have) => write!(text, "long {need} {have}"),
    }
}

// A checksum, in four hexadecimal digits.
fn append_sum(text: &mut Bytes, sum: u16) -> Result<(), AllocError>
    ensures { OnOk result (text.new ≡ text.old ++ sum_text sum) }
{
    append_hex(text, &sum.to_be_bytes())
}

// The checksum that is wanted, and the one that is there.
fn append_sums(text: &mut Bytes, want: u16, have: u16) -> Result<(), AllocError>
    ensures { OnOk result (text.new ≡ text.old ++ sums_text want have) }
{
    text.append(b"sum ")?;
    append_sum(text, want)?;
    text.append(b" ")?;
    append_sum(text, have)
}

/// What is wrong with a datagram that carries membership messages.
pub fn append_inner_fault(text: &mut Bytes, fault: &InnerFault) -> Result<(), AllocError>
    ensures { OnOk result (text.new ≡ text.old ++ inner_text fault.now) }
{
    match *fault {
        InnerFault::Version(version) => write!(text, "version {version}"),
        InnerFault::ShortHeader(need, have) => write!(text, "short {need} {have}"),
        InnerFault::HeaderLength(words) => write!(text, "header {words}"),
        InnerFault::TotalLength(want, have) => write!(text, "length {want} {have}"),
        InnerFault::HeaderSum(want, have) => append_sums(text, want, have),
        InnerFault::Fragment(bits) => write!(text, "fragment {bits}"),
        InnerFault::Protocol(protocol) => write!(text, "protocol {protocol}"),
        InnerFault::Extension(kind) => write!(text, "extension {kind}"),
    }
}

/// What is wrong with a membership report or query.
pub fn append_report_fault(text: &mut Bytes, fault: &ReportFault) -> Result<(), AllocError>
    ensures { OnOk result (text.new ≡ text.old ++ report_text fault.now) }
{
    match *fault {
        ReportFault::Short(need, have) => write!(text, "short {need} {have}"),
        ReportFault::Kind(kind) => write!(text, "kind {kind}"),
        ReportFault::Sum(want, have) => append_sums(text, want, have),
        ReportFault::RecordShort(index) => write!(text, "record {index}"),
        ReportFault::SourceShort(index) => write!(text, "sources {index}"),
    }
}

/// What is wrong with the head of a packet.
pub fn append_head_fault(text: &mut Bytes, fault: &HeadFault) -> Result<(), AllocError>
    ensures { OnOk result (text.new ≡ text.old ++ head_text fault.now) }
{
    match *fault {
        HeadFault::Version(version) => write!(text, "version {version}"),
        HeadFault::ShortHeader(need, have) => write!(text, "short {need} {have}"),
    }
}
