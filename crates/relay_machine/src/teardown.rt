//! What a Teardown comes to: its MAC, and the endpoint that it names. It knows no datagram.
ghost use Rattle.endpoint_membership.specs.{Log.{latest}, Memberships.{is_live}, Table.{IsWithinLimits, TableSettings, memberships_now}};
ghost use Rattle.relay_machine.specs.{EventAnswer.{teardown_answer}, Logs.{StepAnswers}, Sends.{AreShort}};

use crate::outcome::Outcome;
use crate::sends::Step;
use amt_values::Endpoint;
use endpoint_membership::{Change, Table};
use std::alloc::Global;

// What a Teardown comes to: its MAC is judged first. Under a good one, the endpoint that it names
// leaves every group at the table's own moment.
pub fn take_teardown(alloc: Global, table: &mut Table, named: Endpoint, good: bool) -> Step
    ensures answers { (terms : TableSettings) → StepAnswers terms table.old table.new result (λ log.
        teardown_answer good (is_live named (memberships_now terms log)) named (latest log)) }
    ensures within { IsWithinLimits table.old → IsWithinLimits table.new }
    ensures short { AreShort result.sends }
{
    if !good {
        return Step::quiet(alloc, Outcome::BadMac);
    }
    let at = table.now();
    if table.clear(&named, &at) {
        let endpoint = named;
        return Step::entered(alloc, Outcome::TornDown, Change::Clear { endpoint, at });
    }
    Step::quiet(alloc, Outcome::NoTunnel)
}
