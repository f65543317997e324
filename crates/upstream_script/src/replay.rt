//! A relay's run over a script beside what all its endpoints together want, and what is written of both. It
//! knows sinks by their trait alone.

ghost use Rattle.std.specs.{Prelude.{◌≡◌, ◌≤◌, ◌∷◌, ◌++◌, [], flat_map, IfOk, IfSome, OnOk, OnErr, IsErrOf}, Io.KnownBytes.{Appends}};
ghost use Rattle.amt_ports.specs.Causes.{Rose};
ghost use Rattle.endpoint_membership.specs.Table.{ForLog, Holds, memberships_now};
ghost use Rattle.amt_upstream.specs.Upstream.{StaysWithin, records_between};
ghost use Rattle.relay_machine.specs.{Accepted.{with_change}, Settings.{AreLawfulSettings}};
ghost use Rattle.script_lines.specs.{Counting.{CountsWrites}, Running.{After, MayTake}, Writing.{WritesPrefix, WritesUpTo}};
ghost use Rattle.amt_script.specs.{Running.{IsRunnable}, declared.script.RelayItem.TheVariants.{Event as EventItem}};
ghost use Rattle.upstream_script.specs.{Running.{IsUpstreamAfter, MayCome}, Texts.{change_line, start_of, text_after, upstream_script_text}};

use crate::text::append_changes;
use amt_ports::Sink;
use amt_script::{RelayItem, RelayScript, append_relay_step, write_shown};
use amt_upstream::Upstream;
use amt_values::Bytes;
use endpoint_membership::Change;
use relay_machine::{Event, Relay};
use script_lines::{RunFault, ScriptRun, run_script, write_where_full};
use std::alloc::{AllocError, Global};

// The entry that a step hands out is the log's next one. A line for each of its change records goes to the end.
fn append_taken(
    alloc: Global,
    upstream: &mut Upstream,
    change: &Option<Change>,
    text: &mut Bytes,
) -> Result<(), AllocError>
    requires { IfSome change.now (StaysWithin upstream.old) }
    ensures text { ForLog upstream.old (λ settings log. OnOk result (text.new ≡ text.old
        ++ flat_map change_line (records_between (memberships_now settings log)
        (memberships_now settings (with_change log change.now))))) }
    ensures next { ForLog upstream.old (λ settings log.
        OnOk result (Holds settings upstream.new (with_change log change.now))) }
{
    let Some(entry) = change else {
        return Ok(());
    };
    let records = upstream.take(alloc, entry)?;
    append_changes(text, &records)
}

// A relay that takes the items of its script, and what all its endpoints together want.
#[derive(Drop)]
struct UpstreamRun {
    relay: Relay,
    upstream: Upstream,
}

// Takes one event, and puts its text after what is held. Where memory runs out on the way, the relay may be one
// event ahead, and there is no text of it: the run ends there.
fn take_event(
    alloc: Global,
    run: &mut UpstreamRun,
    number: u64,
    event: &Event,
    held: &mut Bytes,
) -> Result<(), AllocError>
    requires { MayTake IsUpstreamAfter MayCome run.old (EventItem event.now) }
    ensures text { After IsUpstreamAfter run.old (λ start before.
        OnOk result (held.new ≡ held.old ++ text_after start before number (EventItem event.now))) }
    ensures next { After IsUpstreamAfter run.old (λ start before.
        OnOk result (IsUpstreamAfter run.new start (before ++ EventItem event.now ∷ []))) }
{
    let step = run.relay.step(alloc, event)?;
    let mut text = Bytes::new(alloc);
    append_relay_step(&mut text, number, &step)?;
    append_taken(alloc, &mut run.upstream, &step.change, &mut text)?;
    held.append(text.as_slice())
}

// Takes one event, and writes its text.
fn write_event<O: Sink>(
    alloc: Global,
    run: &mut UpstreamRun,
    number: u64,
    event: &Event,
    held: &mut Bytes,
    out: &mut O,
) -> Result<(), RunFault>
    requires { MayTake IsUpstreamAfter MayCome run.old (EventItem event.now) }
    ensures done { After IsUpstreamAfter run.old (λ start before.
        OnOk result (WritesUpTo (O.written out.old) (O.written out.new)
        (held.old ++ text_after start before number (EventItem event.now)) held.new)) }
    ensures begun { After IsUpstreamAfter run.old (λ start before.
        OnErr result (WritesPrefix (O.written out.old) (O.written out.new)
        (held.old ++ text_after start before number (EventItem event.now)))) }
    ensures next { After IsUpstreamAfter run.old (λ start before.
        OnOk result (IsUpstreamAfter run.new start (before ++ EventItem event.now ∷ []))) }

    ensures counts { CountsWrites (O.faults out.old) (O.faults out.new) result }
{
    let Ok(()) = take_event(alloc, run, number, event, held) else {
        return Err(RunFault::Memory);
    };
    write_where_full(held, out)
}

impl ScriptRun for UpstreamRun {
    ghost use Rattle.amt_script.specs.Texts.{RelayStart};
    ghost use Rattle.upstream_script.specs.{Running.{IsUpstreamAfter, MayCome as ItemMayCome}, Texts.{text_after}};

    type Item = RelayItem;

    ghost Start = { RelayStart };

    ghost IsAfter = { IsUpstreamAfter };

    ghost MayCome = { ItemMayCome };

    ghost text_of = { text_after };

    fn write_item<O: Sink>(
        &mut self,
        alloc: Global,
        number: u64,
        item: &RelayItem,
        held: &mut Bytes,
        out: &mut O,
    ) -> Result<(), RunFault> {
        match item {
            RelayItem::Event(event) => write_event(alloc, self, number, event, held, out),
            RelayItem::Show => write_shown(alloc, &self.relay, number, held, out),
        }
    }
}

// The relay that a script sets up, and what its endpoints together want before all items.
fn set_up(alloc: Global, script: &RelayScript) -> Result<UpstreamRun, AllocError>
    requires { AreLawfulSettings script.now.settings }
    ensures { IfOk result (λ run. IsUpstreamAfter run (start_of script.now) []) }
{
    let settings = script.settings;
    let relay = Relay::new(alloc, settings, script.secret)?;
    let upstream = Upstream::new(alloc, settings.limits, settings.lifetime_ms())?;
    Ok(UpstreamRun { relay, upstream })
}

/// Runs a relay over a script, and writes the text of its steps, each with the change records of what all
/// endpoints together want, and of the memberships where they are shown.
pub fn run_upstream_script<O: Sink>(
    alloc: Global,
    script: &RelayScript,
    out: &mut O,
) -> Result<(), RunFault>
    requires { IsRunnable script.now }
    ensures done { OnOk result (Appends (O.written out.old) (O.written out.new)
        (upstream_script_text script.now)) }
    ensures begun { OnErr result (WritesPrefix (O.written out.old) (O.written out.new)
        (upstream_script_text script.now)) }

    ensures later { O.faults out.old ≤ O.faults out.new }
    ensures write { IsErrOf result RunFault.Write → Rose (O.faults out.old) (O.faults out.new) }
    ensures quiet { ¬ IsErrOf result RunFault.Write → O.faults out.new ≡ O.faults out.old }
{
    let Ok(run) = set_up(alloc, script) else {
        return Err(RunFault::Memory);
    };
    run_script(alloc, run, script.items.as_slice(), out)
}
