//! What one event came to: its outcome, the datagrams to send, and the entry that is handed out.
ghost use Rattle.std.specs.Prelude.{◌≡◌, [], ◌∷◌, IfOk, None, Some};
ghost use Rattle.amt_messages.specs.{Messages.{IsSendable}, Layout.{spelling_of}};
ghost use Rattle.relay_machine.specs.Sends.{AreShort};

use crate::outcome::Outcome;
use amt_messages::{Message, encode};
use amt_values::{Bytes, Endpoint, Items};
use endpoint_membership::Change;
use std::alloc::{AllocError, Global};

/// A datagram to send.
#[derive(Debug, Drop)]
pub struct OneSend {
    pub to: Endpoint,
    pub bytes: Bytes,
}

/// Datagrams to send, in order.
pub type Sends = Items<OneSend>;

/// What one event came to, what is to be sent, and the entry of the accepted log that is handed out:
/// the one that the event added, but for a clearing of an endpoint without a membership.
#[derive(Debug, Drop)]
pub struct Step {
    pub outcome: Outcome,
    pub sends: Sends,
    pub change: Option<Change>,
}

impl Step {
    /// A step that sends nothing and hands out no entry.
    pub(crate) fn quiet(alloc: Global, outcome: Outcome) -> Step
        ensures outcome { result.outcome ≡ outcome }
        ensures sends { result.sends ≡ [] }
        ensures change { result.change ≡ None }
        ensures short { AreShort result.sends }
    {
        Step {
            outcome,
            sends: Sends::new(alloc),
            change: None,
        }
    }

    /// A step that sends nothing and hands out this entry of the accepted log.
    pub(crate) fn entered(alloc: Global, outcome: Outcome, change: Change) -> Step
        ensures outcome { result.outcome ≡ outcome }
        ensures sends { result.sends ≡ [] }
        ensures change { result.change ≡ Some change }
        ensures short { AreShort result.sends }
    {
        Step {
            outcome,
            sends: Sends::new(alloc),
            change: Some(change),
        }
    }

    /// A step that sends this message and hands out no entry.
    pub(crate) fn replied(
        alloc: Global,
        outcome: Outcome,
        to: Endpoint,
        message: &Message,
    ) -> Result<Step, AllocError>
        requires { IsSendable message.now }
        ensures outcome { IfOk result (λ step. step.outcome ≡ outcome) }
        ensures sends { IfOk result
            (λ step. step.sends ≡ record { to = to; bytes = spelling_of message.now } ∷ []) }
        ensures change { IfOk result (λ step. step.change ≡ None) }
        ensures short { IfOk result (λ step. AreShort step.sends) }
    {
        let bytes = encode(alloc, message)?;
        let mut sends = Sends::with_room(alloc, 1)?;
        sends.push(OneSend { to, bytes })?;
        Ok(Step {
            outcome,
            sends,
            change: None,
        })
    }
}
