//! A relay's run over a script, of which the answers are counted.

ghost use Rattle.std.specs.{Prelude.{◌≡◌, ◌<◌, ◌≤◌, ◌-◌, ◌^◌, ◌+◌, [], ◌∷◌, ◌++◌, List, IfOk, OnOk}, List.{AllByRecursion}};
ghost use Rattle.relay_machine.specs.{Answers.{After, RelayAt, outcome_of, settings_of}, EventSize.{IsEvent}, declared.settings.Settings.{Settings}};
ghost use Rattle.response_mac.specs.declared.secret.Secret.{Secret};
ghost use Rattle.amt_script.specs.{Running.{IsItem, IsRunnable}, declared.script.RelayItem.{RelayItem as ItemValue}};
ghost use Rattle.relay_load.specs.{Counts.{summary_of}, Counting.{AreSmall, IsCounted, with_outcome}, Script.{load_script_of}, Texts.{load_text}};

use crate::script::load_script;
use crate::summary::LoadSummary;
use amt_script::{RelayItem, RelayScript};
use amt_values::Bytes;
use relay_machine::{Event, Outcome, Relay};
use std::alloc::{AllocError, Global};

// What is counted of the events so far.
#[derive(Clone, Copy, Debug)]
struct Counts {
    events: u64,
    updated: u64,
    copied: u128,
}

fn count_outcome(counts: &mut Counts, outcome: &Outcome)
    requires room { counts.old.events < 2 ^ 64 - 1 }
    requires small { AreSmall counts.old }
    ensures counted { counts.new ≡ with_outcome counts.old outcome.now }
    ensures small { AreSmall counts.new }
    ensures one { counts.new.events ≡ counts.old.events + 1 }
{
    counts.events += 1;
    match outcome {
        Outcome::Updated => counts.updated += 1,
        Outcome::Copied(count) => counts.copied += u128::from(*count),
        _ => {}
    }
}

fn take_event(
    alloc: Global,
    relay: &mut Relay,
    counts: &mut Counts,
    event: &Event,
) -> Result<(), AllocError>
    requires event { IsEvent (settings_of relay.old) event.now }
    requires room { counts.old.events < 2 ^ 64 - 1 }
    requires small { AreSmall counts.old }

    ensures next { After relay.old (λ settings first events.
        OnOk result (RelayAt relay.new settings first (events ++ event.now ∷ []))) }
    ensures counted { After relay.old (λ settings first events. OnOk result
        (counts.new ≡ with_outcome counts.old (outcome_of settings first events event.now))) }
    ensures settings { settings_of relay.new ≡ settings_of relay.old }
    ensures small { OnOk result (AreSmall counts.new) }
    ensures one { OnOk result (counts.new.events ≡ counts.old.events + 1) }
{
    let step = relay.step(alloc, event)?;
    count_outcome(counts, &step.outcome);
    Ok(())
}

// Where memberships are shown, nothing happens to the relay.
fn take_item(
    alloc: Global,
    relay: &mut Relay,
    counts: &mut Counts,
    item: &RelayItem,
) -> Result<(), AllocError>
    requires item { IsItem (settings_of relay.old) item.now }
    requires room { counts.old.events < 2 ^ 64 - 1 }
    requires small { AreSmall counts.old }

    ensures counted { (settings : Settings) (first : Secret) (before : List ItemValue)
        → IsCounted relay.old counts.old settings first before
        → OnOk result (IsCounted relay.new counts.new settings first (before ++ item.now ∷ [])) }
    ensures settings { settings_of relay.new ≡ settings_of relay.old }
    ensures small { OnOk result (AreSmall counts.new) }
    ensures one { OnOk result (counts.new.events ≤ counts.old.events + 1) }
{
    match item {
        RelayItem::Event(event) => take_event(alloc, relay, counts, event),
        RelayItem::Show => Ok(()),
    }
}

fn count_answers(
    alloc: Global,
    relay: &mut Relay,
    items: &[RelayItem],
) -> Result<Counts, AllocError>
    requires { AllByRecursion (IsItem (settings_of relay.old)) items.now }
    ensures { (settings : Settings) (first : Secret) → RelayAt relay.old settings first []
        → IfOk result (λ counts. IsCounted relay.new counts settings first items.now) }
{
    let mut counts = Counts {
        events: 0,
        updated: 0,
        copied: 0,
    };
    for item in items {
        take_item(alloc, relay, &mut counts, item)?;
    }
    Ok(counts)
}

/// Runs a relay over a script, and counts what its events come to.
///
/// An event for which memory runs out is counted by nothing: it ends the run.
#[tactic(auto, unfolding(crate::specs::Counts::summary_of))]
pub fn run_load(alloc: Global, script: &RelayScript) -> Result<LoadSummary, AllocError>
    requires { IsRunnable script.now }
    ensures summary { IfOk result (λ summary. summary ≡ summary_of script.now) }
{
    let mut relay = Relay::new(alloc, script.settings, script.secret)?;
    let counts = count_answers(alloc, &mut relay, script.items.as_slice())?;
    Ok(LoadSummary {
        events: counts.events,
        updated: counts.updated,
        copied: counts.copied,
        live: relay.live_endpoints(),
    })
}

/// The text of the summary of the script that a seed and a count make.
pub fn load(alloc: Global, seed: u32, count: u32) -> Result<Bytes, AllocError>
    requires least { 1 ≤ count }
    requires most { count ≤ 65536 }
    ensures text { IfOk result (λ text. text ≡ load_text (summary_of (load_script_of seed count))) }
{
    let script = load_script(alloc, seed, count)?;
    run_load(alloc, &script)?.text(alloc)
}
