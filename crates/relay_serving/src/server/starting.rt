//! How a running relay is started.
ghost use Rattle.std.specs.Prelude.{◌≡◌, ◌≤◌, ◌<◌, ◌+◌, ◌++◌, [], All, length, IfErr, IfOk, OnOk, map, reverse, true, false, vec_capacity};
ghost use Rattle.logbook.specs.Pages.{Book};
ghost use Rattle.published_table.specs.Views.{IsNew, views_of};
ghost use Rattle.relay_machine.specs.Settings.{AreLawfulSettings};
ghost use Rattle.replication_workers.specs.{Replicators.{out_of}, Dispatchers.{AllRun, is_threaded, slots_of}, SlotStates.{new_slot}, Starting.{HaveStarted}};
ghost use Rattle.relay_serving.specs.{Devices.{outs_seen}, GivenOut.{starts_in, terms_by}, Starting.{AreLeftBy, AreReadBy, AreStarts, HasRoomBack, IsAtStart}};

use super::Server;
use crate::counts::Counts;
use crate::course::Course;
use crate::outcomes::Outcomes;
use amt_ports::{End, OutLink, Spawner};
use published_table::{Publisher, Terms, Views};
use relay_machine::{Relay, Settings};
use replication_workers::{
    Dispatcher, NewFault, Outs, Replicator, Replicators, StartFault, Worker,
};
use response_mac::Secret;
use std::alloc::{AllocError, Global};
use std::snapshot::Snapshot;
use std::sync::Wait;

/// Why no relay was started, and the outs that are left.
#[derive(Drop)]
pub(crate) struct NotStarted<O> {
    pub(crate) end: End,
    pub(crate) outs: Outs<O>,
}

// Takes the replicators apart, the last one first, and puts their outs after the others.
fn unmake<O: OutLink + Drop>(made: &mut Vec<Replicator<O>>, outs: &mut Vec<O>)
    requires room { length outs.old.items + length made.old.items ≤ vec_capacity outs.old }
    ensures outs { outs.new.items ≡ outs.old.items ++ map out_of (reverse made.old.items) }
    ensures none { made.new.items ≡ [] }
{
    while let Some(replicator) = made.pop() {
        let (_view, out) = replicator.into_parts();
        outs.push_reserved(out);
    }
}

// Puts the replicators after the others, the last one first.
fn turn_round<O: OutLink + Drop>(from: &mut Vec<Replicator<O>>, to: &mut Vec<Replicator<O>>)
    requires room { length to.old.items + length from.old.items ≤ vec_capacity to.old }
    ensures turned { to.new.items ≡ to.old.items ++ reverse from.old.items }
    ensures none { from.new.items ≡ [] }
    ensures room { (vec_capacity to.new ≡ vec_capacity to.old) × (vec_capacity from.new ≡ vec_capacity from.old) }
{
    while let Some(replicator) = from.pop() {
        to.push_reserved(replicator);
    }
}

// Makes a replicator over each out, the last one first. Without memory the other outs are left.
fn make_each<O: OutLink + Drop>(
    alloc: Global,
    settings: &Settings,
    views: &mut Views,
    outs: &mut Vec<O>,
    made: &mut Vec<Replicator<O>>,
) -> Result<(), AllocError>
    requires lawful { AreLawfulSettings settings.now }
    requires views { length (views_of views.old) ≡ length outs.old.items }
    requires terms { AreReadBy (terms_by settings.now) (views_of views.old) }
    requires none { made.old.items ≡ [] }
    requires room { length outs.old.items ≤ vec_capacity made.old }
    ensures outs { outs.new.items ++ map out_of (reverse made.new.items) ≡ outs.old.items }
    ensures all { OnOk result (outs.new.items ≡ []) }
    ensures starts { (book : Book) → All (IsNew book (terms_by settings.now)) (views_of views.old)
        → AreStarts settings.now book made.new.items }
    ensures room { (vec_capacity outs.new ≡ vec_capacity outs.old) × (vec_capacity made.new ≡ vec_capacity made.old) }
{
    while let Some(out) = outs.pop() {
        let Some(view) = views.pop() else {
            unreachable!()
        };
        let endpoints = settings.limits.endpoints;
        match Replicator::new(alloc, view, out, endpoints, settings.packet_limit) {
            Ok(replicator) => made.push_reserved(replicator),
            Err(NewFault { view: _view, out }) => {
                outs.push_reserved(out);
                return Err(AllocError);
            }
        }
    }
    Ok(())
}

// Replicators that aren't started yet, and the room in which their outs come back where they never are.
#[derive(Drop)]
struct Made<O: OutLink> {
    slots: Replicators<O>,
    turned: Vec<Replicator<O>>,
    outs: Vec<O>,
}

// A replicator over each out, in order. Without memory the outs come back.
fn make_replicators<O: OutLink + Drop>(
    alloc: Global,
    settings: &Settings,
    mut views: Views,
    outs: Outs<O>,
) -> Result<Made<O>, Outs<O>>
    requires lawful { AreLawfulSettings settings.now }
    requires views { length (views_of views) ≡ length outs }
    requires terms { AreReadBy (terms_by settings.now) (views_of views) }
    ensures outs { IfOk result (λ made. map out_of made.slots ≡ outs) }
    ensures starts { (book : Book) → All (IsNew book (terms_by settings.now)) (views_of views)
        → IfOk result (λ made. AreStarts settings.now book made.slots) }
    ensures room { IfOk result (HasRoomBack (length outs)) }
    ensures back { IfErr result (λ back. back ≡ outs) }
{
    let mut outs = outs.into_items();
    let Ok(mut turned) = Vec::with_capacity(alloc, outs.len()) else {
        return Err(Outs::from(outs));
    };
    let Ok(mut slots) = Vec::with_capacity(alloc, outs.len()) else {
        return Err(Outs::from(outs));
    };
    if make_each(alloc, settings, &mut views, &mut outs, &mut turned).is_err() {
        unmake(&mut turned, &mut outs);
        return Err(Outs::from(outs));
    }
    turn_round(&mut turned, &mut slots);
    Ok(Made {
        slots: Replicators::from(slots),
        turned,
        outs,
    })
}

// The outs of replicators that weren't started, in order. It takes no memory.
fn take_back<O: OutLink + Drop>(
    slots: Replicators<O>,
    mut turned: Vec<Replicator<O>>,
    mut outs: Vec<O>,
) -> Outs<O>
    requires none { (turned.items ≡ []) × (outs.items ≡ []) }
    requires room { (length slots ≤ vec_capacity turned) × (length slots ≤ vec_capacity outs) }
    ensures { result ≡ map out_of slots }
{
    turn_round(&mut slots.into_items(), &mut turned);
    unmake(&mut turned, &mut outs);
    Outs::from(outs)
}

impl<O> NotStarted<O> {
    // Out of memory, with all outs.
    fn memory(outs: Outs<O>) -> NotStarted<O>
        ensures { (result.end ≡ End.Memory) × (result.outs ≡ outs) }
    {
        NotStarted {
            end: End::Memory,
            outs,
        }
    }
}

// Starts a dispatcher over the replicators.
fn dispatch<O: OutLink + Drop, R: Wait, P: Spawner<Worker<O>>>(
    rt: &R,
    alloc: Global,
    made: Made<O>,
    threads: bool,
    spawner: &mut P,
) -> Result<Dispatcher<O, P::Started>, NotStarted<O>>
    requires some { 1 ≤ length made.slots }
    requires few { length made.slots ≤ 64 }
    requires room { HasRoomBack (length made.slots) made }
    ensures slots { IfOk result (λ dispatcher. slots_of dispatcher ≡ map new_slot made.slots) }
    ensures mode { IfOk result (λ dispatcher. is_threaded dispatcher ≡ threads) }
    ensures run { IfOk result (AllRun P.task_of) }
    ensures workers { threads ≡ true → OnOk result
        (HaveStarted (length made.slots) (P.starts spawner.old) (P.starts spawner.new)) }
    ensures none_started { threads ≡ false → P.starts spawner.new ≡ P.starts spawner.old }
    ensures quiet { OnOk result (P.faults spawner.new ≡ P.faults spawner.old) }
    ensures left { IfErr result (λ not. AreLeftBy not.end (outs_seen O.tried O.faults (map out_of made.slots))
        (outs_seen O.tried O.faults not.outs) (P.starts spawner.old) (P.starts spawner.new) (P.faults spawner.old) (P.faults spawner.new)) }
{
    let Made {
        slots,
        turned,
        outs,
    } = made;
    match Dispatcher::start(rt, alloc, slots, threads, spawner) {
        Ok(dispatcher) => Ok(dispatcher),
        Err(StartFault::Memory(slots)) => Err(NotStarted {
            end: End::Memory,
            outs: take_back(slots, turned, outs),
        }),
        Err(
            StartFault::Failed {
                outs,
                views: _views,
            },
        ) => Err(NotStarted {
            end: End::SpawnFault,
            outs,
        }),
    }
}

// A dispatcher with a slot for each out, by these views.
fn start_slots<O: OutLink + Drop, R: Wait, P: Spawner<Worker<O>>>(
    rt: &R,
    alloc: Global,
    settings: &Settings,
    views: Views,
    outs: Outs<O>,
    threads: bool,
    spawner: &mut P,
) -> Result<Dispatcher<O, P::Started>, NotStarted<O>>
    requires lawful { AreLawfulSettings settings.now }
    requires some { 1 ≤ length outs }
    requires few { length outs ≤ 64 }
    requires views { length (views_of views) ≡ length outs }
    requires terms { AreReadBy (terms_by settings.now) (views_of views) }
    ensures outs { IfOk result (λ dispatcher. map out_of (starts_in (slots_of dispatcher)) ≡ outs) }
    ensures jobs { IfOk result (λ dispatcher. slots_of dispatcher ≡ map new_slot (starts_in (slots_of dispatcher))) }
    ensures starts { (book : Book) → All (IsNew book (terms_by settings.now)) (views_of views)
        → IfOk result (λ dispatcher. AreStarts settings.now book (starts_in (slots_of dispatcher))) }
    ensures mode { IfOk result (λ dispatcher. is_threaded dispatcher ≡ threads) }
    ensures run { IfOk result (AllRun P.task_of) }
    ensures workers { threads ≡ true → OnOk result
        (HaveStarted (length outs) (P.starts spawner.old) (P.starts spawner.new)) }
    ensures none_started { threads ≡ false → P.starts spawner.new ≡ P.starts spawner.old }
    ensures quiet { OnOk result (P.faults spawner.new ≡ P.faults spawner.old) }
    ensures left { IfErr result (λ not. AreLeftBy not.end (outs_seen O.tried O.faults outs)
        (outs_seen O.tried O.faults not.outs) (P.starts spawner.old) (P.starts spawner.new) (P.faults spawner.old) (P.faults spawner.new)) }
{
    match make_replicators(alloc, settings, views, outs) {
        Ok(made) => dispatch(rt, alloc, made, threads, spawner),
        Err(outs) => Err(NotStarted::memory(outs)),
    }
}

impl<O: OutLink + Drop, T> Server<O, T> {
    /// A relay of these settings, with a slot for each out, from 1 to 64. Out of memory, or where a start was
    /// refused, outs are left.
    pub(crate) fn start<R: Wait, P: Spawner<Worker<O>, Started = T>>(
        rt: &R,
        alloc: Global,
        settings: Settings,
        first: Secret,
        outs: Outs<O>,
        threads: bool,
        spawner: &mut P,
    ) -> Result<Server<O, T>, NotStarted<O>>
        requires lawful { AreLawfulSettings settings }
        requires some { 1 ≤ length outs }
        requires few { length outs ≤ 64 }
        ensures started { IfOk result (IsAtStart settings first outs threads) }
        ensures run { IfOk result (λ server. AllRun P.task_of server.dispatcher) }
        ensures workers { threads ≡ true → OnOk result
            (HaveStarted (length outs) (P.starts spawner.old) (P.starts spawner.new)) }
        ensures none_started { threads ≡ false → P.starts spawner.new ≡ P.starts spawner.old }
        ensures quiet { OnOk result (P.faults spawner.new ≡ P.faults spawner.old) }
        ensures left { IfErr result (λ not. AreLeftBy not.end (outs_seen O.tried O.faults outs)
            (outs_seen O.tried O.faults not.outs) (P.starts spawner.old) (P.starts spawner.new) (P.faults spawner.old) (P.faults spawner.new)) }
    {
        let terms = Terms {
            limits: settings.limits,
            lifetime_ms: settings.lifetime_ms(),
        };
        let Ok(relay) = Relay::new(alloc, settings, first) else {
            return Err(NotStarted::memory(outs));
        };
        let Ok(outcomes) = Outcomes::new(alloc, settings.packet_limit) else {
            return Err(NotStarted::memory(outs));
        };
        let Ok((publisher, views)) = Publisher::with_views(rt, alloc, outs.len() as u32, terms)
        else {
            return Err(NotStarted::memory(outs));
        };
        match start_slots(rt, alloc, &settings, views, outs, threads, spawner) {
            Ok(dispatcher) => Ok(Server {
                relay,
                publisher,
                dispatcher,
                counts: Counts::new(),
                outcomes,
                first: Snapshot::of(&first),
                course: Course::new(),
            }),
            Err(left) => {
                publisher.end(rt);
                Err(left)
            }
        }
    }
}
