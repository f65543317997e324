//! What a Request is answered. Nothing of it is kept.
ghost use Rattle.std.specs.Prelude.{◌≡◌, IfOk};
ghost use Rattle.endpoint_membership.specs.Table.{ForLog, IsWithinLimits, in_force_of};
ghost use Rattle.relay_machine.specs.{EventAnswer.{is_limited, replied}, Logs.{AnswersByLog}, Queries.{query_for}, Sends.{AreShort}, Settings.{table_settings_of}};

use crate::outcome::Outcome;
use crate::sends::Step;
use crate::setup::Setup;
use amt_values::Endpoint;
use endpoint_membership::Table;
use response_mac::Secrets;
use std::alloc::{AllocError, Global};

fn is_limited(table: &Table) -> bool
    requires { IsWithinLimits table.now }
    ensures { ForLog table.now (λ terms log. result ≡ is_limited (in_force_of terms table.now) log) }
{
    table.live_endpoints() >= table.limits().endpoints
}

// A Request is answered with a Query of the family that it asks for, under the current secret.
pub fn take_request(
    alloc: Global,
    setup: &Setup,
    secrets: &Secrets,
    table: &Table,
    source: Endpoint,
    v6: bool,
    nonce: u32,
) -> Result<Step, AllocError>
    requires { IsWithinLimits table.now }
    ensures answers { AnswersByLog (table_settings_of setup.now.settings) table.now table.now result
        (λ log. replied (Outcome.Queried v6
        (is_limited (in_force_of (table_settings_of setup.now.settings) table.now) log)) source
        (query_for setup.now.settings secrets.now.current v6
        (is_limited (in_force_of (table_settings_of setup.now.settings) table.now) log) source nonce)) }
    ensures short { IfOk result (λ step. AreShort step.sends) }
{
    let limited = is_limited(table);
    let query = setup.query_for(alloc, secrets.current_key(), v6, limited, source, nonce)?;
    Step::replied(alloc, Outcome::Queried { v6, limited }, source, &query)
}
