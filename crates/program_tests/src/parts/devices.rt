//! Readers and writers of std as sources and sinks, where they falter. It knows public calls alone.

ghost use Rattle.std.specs.Prelude.{◌≤◌, IfOk};

use amt_ports::*;
use amt_values::Bytes;
use std::alloc::Global;
use std::io;
use std::io::{ErrorKind, Read, Write};

// What one call of a device of std gives.
#[derive(Clone, Copy, Debug)]
enum Call {
    Moves(usize),
    Fails(ErrorKind),
}

// A device of which each call is listed. After the last call a reader is at its end, and a writer takes nothing.
#[derive(Drop)]
struct Listed {
    calls: &'static [Call],
}

impl Listed {
    fn call(&mut self, room: usize) -> io::Result<usize>
        ensures { IfOk result (λ n. n ≤ room) }
    {
        let Some((first, rest)) = self.calls.split_first() else {
            return Ok(0);
        };
        self.calls = rest;
        match *first {
            Call::Moves(count) => Ok(count.min(room)),
            Call::Fails(kind) => Err(io::Error::from(kind)),
        }
    }
}

impl Read for Listed {
    fn read(&mut self, buf: &mut [u8]) -> io::Result<usize> {
        self.call(buf.len())
    }
}

impl Write for Listed {
    fn write(&mut self, buf: &[u8]) -> io::Result<usize> {
        self.call(buf.len())
    }

    fn flush(&mut self) -> io::Result<()> {
        Ok(())
    }
}

const INTERRUPTED: Call = Call::Fails(ErrorKind::Interrupted);

const BROKEN: Call = Call::Fails(ErrorKind::BrokenPipe);

const BLOCKED: Call = Call::Fails(ErrorKind::WouldBlock);

const FAULT: Result<usize, Failed> = Err(Failed);

// What two calls of an adapter answer.
type Answers = [Result<usize, Failed>; 2];

// The calls of a device, the octets of the buffer or the piece, and what two reads answer, and what two writes do.
const FALTERING: [(&[Call], usize, Answers, Answers); 5] = [
    // An interruption is asked again.
    (
        &[INTERRUPTED, Call::Moves(1), BROKEN],
        8,
        [Ok(1), FAULT],
        [Ok(1), FAULT],
    ),
    // Another fault is reported and not asked again, and the device goes on.
    (
        &[BLOCKED, Call::Moves(3)],
        8,
        [FAULT, Ok(3)],
        [FAULT, Ok(3)],
    ),
    // A fault is reported where there is nothing to move.
    (&[BROKEN, Call::Moves(0)], 0, [FAULT, Ok(0)], [FAULT, Ok(0)]),
    // Each call is made once.
    (
        &[Call::Moves(2), Call::Moves(3)],
        8,
        [Ok(2), Ok(3)],
        [Ok(2), Ok(3)],
    ),
    // The end of input is no fault, and a write of nothing is one.
    (&[], 8, [Ok(0), Ok(0)], [FAULT, FAULT]),
];

fn reads(calls: &'static [Call], room: usize, want: &Answers) -> bool {
    let mut source = ReaderSource::new(Listed { calls });
    let mut buffer = [0; 8];
    let (buffer, _) = buffer.split_at_mut(room.min(8));
    source.read(buffer) == want[0] && source.read(buffer) == want[1]
}

fn writes(calls: &'static [Call], room: usize, want: &Answers) -> bool {
    let mut sink = WriterSink::new(Listed { calls });
    let (piece, _) = b"12345678".split_at(room.min(8));
    sink.write(piece) == want[0] && sink.write(piece) == want[1]
}

#[test]
fn a_fault_of_a_device_is_reported_once_and_an_interruption_never(rt: HostRuntime) {
    for (calls, room, read, written) in FALTERING.as_slice() {
        assert!(rt; reads(calls, *room, read), "{calls:?}");
        assert!(rt; writes(calls, *room, written), "{calls:?}");
    }
}

#[test]
fn a_std_writer_that_takes_no_more_is_a_write_fault(rt: HostRuntime) {
    let mut room = [0; 4];
    let mut sink = WriterSink::new(room.as_mut_slice());
    assert_eq!(rt; write_all_own(&mut sink, b"gateway"), Err(WriteFault));
    assert_eq!(rt; sink.faults(), 1);
    assert_eq!(rt; room, *b"gate");
}

fn is_read<S: Source + Drop>(alloc: Global, source: S, want: &[u8]) -> bool {
    let mut source = source;
    match read_all(alloc, &mut source) {
        Ok(read) => read.as_slice() == want,
        Err(_) => false,
    }
}

fn is_read_without_fault(alloc: Global, octets: &[u8]) -> bool {
    match Bytes::copied(alloc, octets) {
        Ok(bytes) => is_read(alloc, FaultlessSource::new(bytes), octets),
        Err(_) => false,
    }
}

#[test]
fn sources_are_read_to_their_end(rt: HostRuntime) {
    assert!(rt;
        is_read(
            rt.alloc(),
            ReaderSource::new(b"gateway".as_slice()),
            b"gateway"
        )
    );
    assert!(rt; is_read_without_fault(rt.alloc(), b"relay"));
}
