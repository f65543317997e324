//! What a Discovery is answered. It knows neither table nor secret.
ghost use Rattle.std.specs.Prelude.{IfOk};
ghost use Rattle.endpoint_membership.specs.Table.{TableValue, TableSettings};
ghost use Rattle.relay_machine.specs.{EventAnswer.{replied}, Logs.{AnswersByLog}, Sends.{AreShort}};

use crate::outcome::Outcome;
use crate::sends::Step;
use crate::setup::Setup;
use amt_messages::Message;
use amt_values::Endpoint;
use std::alloc::{AllocError, Global};

// A Discovery is answered with its nonce and the relay's address.
pub fn take_discovery(
    alloc: Global,
    setup: &Setup,
    source: Endpoint,
    nonce: u32,
) -> Result<Step, AllocError>
    ensures answers { (terms : TableSettings) (table : TableValue) → AnswersByLog terms table table result
        (λ log. replied Outcome.Advertised source
        (Message.Advertisement nonce setup.now.settings.relay)) }
    ensures short { IfOk result (λ step. AreShort step.sends) }
{
    let relay = setup.settings.relay;
    let advertisement = Message::Advertisement { nonce, relay };
    Step::replied(alloc, Outcome::Advertised, source, &advertisement)
}
