//! That a door hands no reading back: on one thread, and while a publishing changes a copy. A door with a lock that a
//! publishing holds would keep a reader out.
ghost use Rattle.std.specs.Prelude.{◌≡◌, IfOk};

use core::mem::replace_with;
use crossbeam_utils::rule::Unruled;
use left_right::Absorb;
use left_right::writer::Writer;
use published_table::{Counted, Door};
use std::alloc::{AllocError, Global};
use std::process::Abort;
use std::sync::atomic::{AtomicBool, Ordering};
use std::sync::{Arc, Wait};
use std::thread;
use std::thread::Threads;

// So often the change looks for the reader, some seconds long.
const LOOKS: u64 = 1_000_000_000;

/// How the two threads see each other.
#[derive(Drop)]
pub struct Signals {
    changing: AtomicBool,
    reading: AtomicBool,
}

type Shared = Arc<Signals, Global>;

/// A change of the meeting.
#[derive(Drop)]
pub enum Step {
    /// It ends at once.
    Short,
    /// It lasts until a reader is in.
    Long,
}

/// A number of steps, and whether the last one ended with a reader inside.
#[derive(Drop)]
pub struct Meeting {
    signals: Shared,
    count: u64,
    met: bool,
}

impl Absorb<Step> for Meeting {
    ghost use Rattle.std.specs.Prelude.{◌+◌, ◌%◌, ◌^◌};

    type State = u64;

    ghost state = { λ meeting. meeting.count };

    ghost applied = { λ count step. (count + 1) % 2 ^ 64 };

    ghost never_fails = { Unit {0} };

    fn absorb_first(&mut self, operation: &Step, _other: &Meeting) -> Result<(), AllocError> {
        self.met = match operation {
            Step::Short => false,
            Step::Long => meets(&self.signals),
        };
        self.count = self.count.wrapping_add(1);
        Ok(())
    }
}

impl Counted for Meeting {
    ghost counts = { λ meeting. meeting.count };

    fn count(&self) -> u64 {
        self.count
    }
}

type Host = Writer<Meeting, Step, (), Unruled>;

type Guest = Door<Meeting, (), Unruled>;

fn meets(signals: &Signals) -> bool {
    signals.changing.store(true, Ordering::SeqCst);
    for _ in 0..LOOKS {
        if signals.reading.load(Ordering::SeqCst) {
            return true;
        }
    }
    false
}

fn signals_of(alloc: Global) -> Result<Shared, AllocError> {
    let signals = Arc::new(
        alloc,
        Signals {
            changing: AtomicBool::new(false),
            reading: AtomicBool::new(false),
        },
    )?;
    Ok(signals)
}

fn copy_of(alloc: Global, signals: &Shared) -> Result<Meeting, AllocError>
    ensures { IfOk result (λ meeting. meeting.count ≡ 0) }
{
    Ok(Meeting {
        signals: Arc::try_clone(signals)?,
        count: 0,
        met: false,
    })
}

// There is room for 64 doors.
fn host_of(alloc: Global, signals: &Shared) -> Result<Host, AllocError> {
    let first = copy_of(alloc, signals)?;
    let second = copy_of(alloc, signals)?;
    Writer::new(alloc, first, second, 64)
}

// Publishes the step.
fn show<R: Wait>(rt: &R, host: &mut Host, step: Step) -> Result<(), AllocError> {
    if host.append(step).is_err() {
        return Err(AllocError);
    }
    replace_with(host, rt, |host, rt| host.publish_as::<Unruled, R>(rt))
}

fn guest_of(host: &Host) -> Result<Guest, AllocError> {
    let reader = host.factory().reader()?;
    Ok(Door::new(reader))
}

// Asks the door once for so many steps at least: how many it shows.
fn ask(guest: Guest, least: u64) -> (Guest, Option<u64>) {
    match guest.enter::<Unruled>(least) {
        Ok(inside) => {
            let count = inside.get().count();
            (inside.leave(), Some(count))
        }
        Err(guest) => (guest, None),
    }
}

fn guests_of(alloc: Global, host: &Host, count: usize) -> Result<Vec<Guest>, AllocError> {
    let mut guests = Vec::new(alloc);
    for _ in 0..count {
        guests.push(guest_of(host)?)?;
    }
    Ok(guests)
}

// Each door shows the newest.
fn all_see(guests: &mut [Guest], number: u64) -> bool {
    for guest in guests {
        if replace_with(guest, number, ask) != Some(number) || guest.handed() != 0 {
            return false;
        }
    }
    true
}

fn assert_all_see<R: Wait + Abort>(
    rt: &R,
    alloc: Global,
    host: &mut Host,
) -> Result<(), AllocError> {
    let mut guests = guests_of(alloc, host, 64)?;
    for number in 0..1_000 {
        show(rt, host, Step::Short)?;
        assert!(rt; all_see(guests.as_mut_slice(), number + 1), "{number}");
    }
    Ok(())
}

// As many doors as a table has views at most. After each publishing all of them are asked.
#[test]
fn door_on_one_thread(rt: HostRuntime) -> Result<(), AllocError> {
    let signals = signals_of(rt.alloc())?;
    let mut host = host_of(rt.alloc(), &signals)?;
    let done = assert_all_see(&rt, rt.alloc(), &mut host);
    host.take(&rt);
    done
}

// Waits until the change has begun, and asks the door once: how many steps it shows.
fn visit<R: Wait>(rt: &R, guest: Guest, signals: &Signals) -> Option<u64> {
    for _ in rt.forever() {
        if signals.changing.load(Ordering::SeqCst) {
            break;
        }
        thread::yield_now();
    }
    let inside = guest.enter::<Unruled>(1).ok()?;
    signals.reading.store(true, Ordering::SeqCst);
    let count = inside.get().count();
    inside.leave();
    Some(count)
}

// The reader is let in while the second publishing changes a copy, and sees the first.
fn assert_let_in<R: Threads + Wait + Abort + Sync>(
    rt: &R,
    host: &mut Host,
    signals: &Signals,
) -> Result<(), AllocError> {
    show(rt, host, Step::Short)?;
    let guest = guest_of(host)?;
    let (seen, shown) = thread::join(
        rt,
        || visit(rt, guest, signals),
        || show(rt, host, Step::Long),
    );
    shown?;
    assert_eq!(rt; seen, Some(1));
    assert!(rt; host.published().met);
    assert_eq!(rt; host.published().count, 2);
    Ok(())
}

#[test]
fn door_beside_a_publishing(rt: HostRuntime) -> Result<(), AllocError> {
    let signals = signals_of(rt.alloc())?;
    let mut host = host_of(rt.alloc(), &signals)?;
    let done = assert_let_in(&rt, &mut host, &signals);
    host.take(&rt);
    done
}
