//! A capture is read, and the script of a relay or the lines of the tunnel's datagrams in it are written. It knows no
//! device.

ghost use Rattle.std.specs.Prelude.{◌≡◌, ◌≢◌, ◌⊎◌, ◌≤◌, ◌++◌, length, codes, IfErr, IfOk};
ghost use Rattle.amt_pcap.specs.{declared.capture.CaptureFault.{CaptureFault as CaptureFaultValue}, Capture.{IsCapture}, Texts.{HasShortPackets}};
ghost use Rattle.amt_command.specs.{Command.{capture_lines_task, capture_script_task}, Pcap.{fault_word}, Task.{IsErrorBy}};

use crate::fault::prefixed_fault;
use crate::task::{HasTask, TaskFault};
use crate::writing::write_text;
use amt_pcap::{Capture, CaptureFault, capture_lines, capture_script, read_capture};
use amt_ports::Sink;
use amt_values::{Bytes, Ip, parse_ip};
use amt_words::Word;
use script_lines::RunFault;
use std::alloc::{AllocError, Global};

/// A relay, and the capture that happens to it.
#[derive(Drop)]
pub struct CapturedRelay {
    relay: Ip,
    capture: Capture,
}

/// A capture, of which the tunnel's datagrams are asked for.
#[derive(Drop)]
pub struct CaptureLines {}

/// A capture, and for which relay its script is, as the command line gives it.
#[derive(Drop)]
pub struct CaptureScript<'a> {
    pub relay: Word<'a>,
}

// What is wrong with a head.
fn fault_word(fault: CaptureFault) -> &'static str
    ensures { result.now ≡ fault_word fault }
{
    match fault {
        CaptureFault::Short(_, _) => "short",
        CaptureFault::Magic(_) => "magic",
        CaptureFault::Version(_, _) => "version",
        CaptureFault::LinkType(_) => "linktype",
        CaptureFault::Memory => "",
    }
}

// The fault of octets that are no capture.
fn capture_fault(alloc: Global, fault: CaptureFault) -> TaskFault
    ensures { ((fault ≢ CaptureFaultValue.Memory) × (result ≡ TaskFault.Fault (codes "capture: " ++ fault_word fault)))
        ⊎ (result ≡ TaskFault.Memory) }
{
    match fault {
        CaptureFault::Memory => TaskFault::Memory,
        _ => prefixed_fault(alloc, b"capture: ", fault_word(fault).as_bytes()),
    }
}

// Reads a capture, for its lines or for its script.
fn read_octets(alloc: Global, bytes: &[u8]) -> Result<Capture, TaskFault>
    requires { length bytes.now ≤ 16777216 }
    ensures found { IfOk result (IsCapture bytes.now) }
    ensures short { IfOk result HasShortPackets }
    ensures fault { IfErr result (IsErrorBy capture_lines_task bytes.now) }
{
    match read_capture(alloc, bytes) {
        Ok(capture) => Ok(capture),
        Err(fault) => Err(capture_fault(alloc, fault)),
    }
}

impl HasTask for CaptureLines {
    ghost use Rattle.amt_pcap.specs.Texts.{HasShortPackets};

    type Value = Capture;

    ghost task = { λ task. capture_lines_task };

    ghost CanWrite = { λ capture. HasShortPackets capture };

    fn read(&self, alloc: Global, bytes: &[u8]) -> Result<Capture, TaskFault> {
        read_octets(alloc, bytes)
    }

    fn difference(&self, _alloc: Global, _capture: &Capture) -> Result<Option<Bytes>, AllocError> {
        Ok(None)
    }

    fn write<O: Sink>(
        &self,
        alloc: Global,
        capture: &Capture,
        out: &mut O,
    ) -> Result<(), RunFault> {
        let Ok(text) = capture_lines(alloc, capture) else {
            return Err(RunFault::Memory);
        };
        write_text(out, text.as_slice())
    }
}

impl<'a> HasTask for CaptureScript<'a> {
    ghost use Rattle.amt_pcap.specs.Texts.{HasShortPackets};

    type Value = CapturedRelay;

    ghost task = { λ task. capture_script_task task.relay };

    ghost CanWrite = { λ captured. HasShortPackets captured.capture };

    // The word is judged before the octets.
    fn read(&self, alloc: Global, bytes: &[u8]) -> Result<CapturedRelay, TaskFault> {
        let Some(relay) = parse_ip(self.relay.as_str().as_bytes()) else {
            return Err(prefixed_fault(alloc, b"capture: ", b"relay"));
        };
        match read_octets(alloc, bytes) {
            Ok(capture) => Ok(CapturedRelay { relay, capture }),
            Err(fault) => Err(fault),
        }
    }

    fn difference(
        &self,
        _alloc: Global,
        _captured: &CapturedRelay,
    ) -> Result<Option<Bytes>, AllocError> {
        Ok(None)
    }

    fn write<O: Sink>(
        &self,
        alloc: Global,
        captured: &CapturedRelay,
        out: &mut O,
    ) -> Result<(), RunFault> {
        let Ok(text) = capture_script(alloc, &captured.capture, &captured.relay) else {
            return Err(RunFault::Memory);
        };
        write_text(out, text.as_slice())
    }
}
