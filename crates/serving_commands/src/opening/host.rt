//! The devices of the machine.
ghost use Rattle.std.specs.Prelude.{◌≡◌, ◌≤◌, IfOk, IsErrOf, None, is_some, length};
ghost use Rattle.amt_ports.specs.Causes.{Rose};
ghost use Rattle.serving_commands.specs.Seen.{is_asked};

use crate::opening::asked::AskedBy;
use crate::opening::counted::{CountedOut, SharedCopies};
use crate::opening::devices::{GatewayDevices, RelayDevices};
use crate::opening::host_sets::{HostControl, HostGateway, HostOut, HostRelay, WorkerThreads};
use crate::opening::journaled::JournaledControl;
use crate::opening::live::{Live, OpenFault};
use amt_ports::{
    HostClock, HostWords, ThreadSpawner, UdpControl, UdpLink, WriterSink, open_control,
    open_gateway_sockets, open_sockets,
};
use amt_values::Peer;
use relay_serving::Control;
use replication_workers::Outs;
use std::alloc::Global;
use std::fs;
use std::fs::Files;
use std::io::Stderr;
use std::net::Net;
use std::random::RandomSource;
use std::sync::Wait;
use std::thread::Threads;
use std::time::Clock;

// How late the system may end a sleep, in nanoseconds. A turn in which nothing comes sleeps twice, for a millisecond
// each: on time that is some 900 wakings a second, and with this 250.
const TIMER_SLACK: &str = "3000000";

/// The sockets, clock, random words and threads of the machine, and its standard error, where journals go.
#[derive(Drop)]
pub struct HostLive<R> {
    rt: R,
    alloc: Global,
    errors: Stderr,
    faults: u64,
}

impl<R: Copy> HostLive<R> {
    /// The devices of the machine that `rt` runs on, none of which is open yet.
    pub fn new(rt: R, alloc: Global, errors: Stderr) -> Self
        ensures { result.faults ≡ 0 }
    {
        HostLive {
            rt,
            alloc,
            errors,
            faults: 0,
        }
    }

    /// How many openings failed.
    pub fn faults(&self) -> u64
        ensures { result ≡ self.now.faults }
    {
        self.faults
    }

    // Counts an opening that failed.
    fn count<T>(&mut self, opened: &Result<T, OpenFault>)
        ensures later { self.old.faults ≤ self.new.faults }
        ensures failed { IsErrOf opened.now OpenFault.Failed → Rose self.old.faults self.new.faults }
        ensures quiet { ¬ IsErrOf opened.now OpenFault.Failed → self.new.faults ≡ self.old.faults }
    {
        if matches!(opened, Err(OpenFault::Failed)) {
            self.faults = self.faults.saturating_add(1);
        }
    }
}

type RelayControl<R> = Option<Control<HostControl<R>, SharedCopies>>;

// The control socket, where one is wanted.
fn open_socket<R: Net>(
    rt: &R,
    control: &Option<Peer>,
    link: &UdpLink,
) -> Result<Option<UdpControl>, OpenFault> {
    let Some(peer) = control else {
        return Ok(None);
    };
    match open_control(rt, peer, link) {
        Ok(socket) => Ok(Some(socket)),
        Err(_) => Err(OpenFault::Failed),
    }
}

// Where the relay is asked, if anybody asks, with what counts the copies.
fn open_control_beside<R: Net + Clock + Copy + Drop>(
    rt: R,
    alloc: Global,
    errors: Stderr,
    asking: &AskedBy,
    link: &UdpLink,
) -> Result<RelayControl<R>, OpenFault>
    ensures { IfOk result (λ opened. is_some opened ≡ is_asked asking.now) }
{
    if !asking.is_wanted() {
        return Ok(None);
    }
    let socket = open_socket(&rt, &asking.control, link)?;
    let journal = WriterSink::new(errors);
    let clock = HostClock::new(rt);
    Ok(Some(Control {
        link: JournaledControl::new(alloc, socket, clock, journal, asking.report_seconds),
        copies: SharedCopies::new(alloc),
    }))
}

// An end of the link's socket. Its copies are counted where somebody may ask for their number.
fn open_out<R>(link: &UdpLink, control: &mut RelayControl<R>) -> Result<HostOut, OpenFault>
    ensures { is_some control.new ≡ is_some control.old }
{
    let Ok(out) = link.worker_end() else {
        return Err(OpenFault::Failed);
    };
    match control {
        Some(control) => match control.copies.counted(out) {
            Ok(out) => Ok(out),
            Err(_) => Err(OpenFault::Memory),
        },
        None => Ok(CountedOut::uncounted(out)),
    }
}

// An end of the link's socket for each slot.
fn open_outs<R>(
    alloc: Global,
    link: &UdpLink,
    slots: u32,
    control: &mut RelayControl<R>,
) -> Result<Outs<HostOut>, OpenFault>
    ensures outs { IfOk result (λ outs. length outs ≡ slots) }
    ensures control { is_some control.new ≡ is_some control.old }
{
    let mut outs = Outs::new(alloc);
    for slot in 0..slots {
        let out = open_out(link, control)?;
        if outs.push(out).is_err() {
            return Err(OpenFault::Memory);
        }
    }
    Ok(outs)
}

impl<R> Live for HostLive<R>
where
    R: Net + Threads + Wait + Clock + RandomSource + Files + Copy + Drop + 'static,
{
    type Relay = HostRelay<R>;

    type Gateway = HostGateway<R>;

    ghost sets = { λ _. None };

    ghost asked = { λ _. None };

    ghost returned = { λ _. None };

    ghost room = { λ _. None };

    ghost faults = { λ live. live.faults };

    fn open_relay(
        &mut self,
        listen: &Peer,
        feed: &Peer,
        asking: &AskedBy,
        slots: u32,
    ) -> Result<HostRelay<R>, OpenFault> {
        let machine = Machine {
            rt: self.rt,
            alloc: self.alloc,
            errors: self.errors,
        };
        let opened = open_relay_devices(&machine, listen, feed, asking, slots);
        self.count(&opened);
        opened
    }

    fn return_relay(&mut self, devices: HostRelay<R>)
        ensures faults { self.new.faults ≡ self.old.faults }
    {
        // The sockets are closed here.
        drop(devices);
    }

    fn open_gateway(
        &mut self,
        listen: &Peer,
        control: &Peer,
        report_seconds: u32,
    ) -> Result<HostGateway<R>, OpenFault> {
        let machine = Machine {
            rt: self.rt,
            alloc: self.alloc,
            errors: self.errors,
        };
        let opened = open_gateway_devices(&machine, listen, control, report_seconds);
        self.count(&opened);
        opened
    }

    fn return_gateway(&mut self, devices: HostGateway<R>)
        ensures faults { self.new.faults ≡ self.old.faults }
    {
        // The sockets are closed here.
        drop(devices);
    }
}

// What devices are opened on.
#[derive(Clone, Copy)]
struct Machine<R> {
    rt: R,
    alloc: Global,
    errors: Stderr,
}

// What comes in ends a sleep at once, whatever this says. A system that has no such file ends sleeps on time, and an
// idle run takes more of a processor: that is no fault.
fn let_sleeps_end_late<F: Files>(files: &F) {
    let _ = fs::write(files, "/proc/self/timerslack_ns", TIMER_SLACK);
}

fn open_relay_devices<R>(
    machine: &Machine<R>,
    listen: &Peer,
    feed: &Peer,
    asking: &AskedBy,
    slots: u32,
) -> Result<HostRelay<R>, OpenFault>
where
    R: Net + Threads + Wait + Clock + RandomSource + Files + Copy + Drop + 'static,
    ensures outs { IfOk result (λ set. length set.devices.outs ≡ slots) }
    ensures control { IfOk result (λ set. is_some set.devices.control ≡ is_asked asking.now) }
{
    let Machine { rt, alloc, errors } = *machine;
    let_sleeps_end_late(&rt);
    let Ok((link, feed)) = open_sockets(&rt, listen, feed) else {
        return Err(OpenFault::Failed);
    };
    let mut control = open_control_beside(rt, alloc, errors, asking, &link)?;
    let outs = open_outs(alloc, &link, slots, &mut control)?;
    Ok(HostRelay {
        devices: RelayDevices {
            link,
            feed,
            clock: HostClock::new(rt),
            words: HostWords::new(rt),
            outs,
            spawner: ThreadSpawner::new(rt, WorkerThreads::new(rt)),
            control,
        },
    })
}

// What is handed on goes out through the link's socket, so it comes from the peer that the link listens at.
fn open_gateway_devices<R>(
    machine: &Machine<R>,
    listen: &Peer,
    control: &Peer,
    report_seconds: u32,
) -> Result<HostGateway<R>, OpenFault>
where
    R: Net + Clock + RandomSource + Files + Copy + Drop,
{
    let Machine { rt, alloc, errors } = *machine;
    let_sleeps_end_late(&rt);
    let Ok((link, socket)) = open_gateway_sockets(&rt, listen, control) else {
        return Err(OpenFault::Failed);
    };
    let Ok(out) = link.worker_end() else {
        return Err(OpenFault::Failed);
    };
    let journal = WriterSink::new(errors);
    let clock = HostClock::new(rt);
    Ok(GatewayDevices {
        link,
        control: JournaledControl::new(alloc, Some(socket), clock, journal, report_seconds),
        out: CountedOut::uncounted(out),
        clock: HostClock::new(rt),
        words: HostWords::new(rt),
    })
}
