//! The numbers of a running gateway, as its answers to lines and its report have them.
ghost use Rattle.std.specs.Prelude.{◌≡◌, ◌++◌, OnOk};
ghost use Rattle.gateway_serving.specs.{Replies.{numbers_text, sent_text, taken_text}, Reports.{numbers_in}};

use crate::counts::Counts;
use crate::served::GatewayServed;
use amt_values::Bytes;
use control_lines::append_number;
use std::alloc::AllocError;

/// Numbers of a running gateway.
#[derive(Clone, Copy, Debug, PartialEq, Eq)]
pub struct Numbers {
    /// The turns that were whole.
    pub turns: u64,
    pub datagrams: u64,
    pub controls: u64,
    pub bad_controls: u64,
    pub delivered: u64,
    pub unsent: u64,
    pub starved: u64,
}

// What came in.
#[tactic(auto, unfolding(crate::specs::Replies::taken_text))]
fn append_taken(text: &mut Bytes, numbers: &Numbers) -> Result<(), AllocError>
    ensures { OnOk result (text.new ≡ text.old ++ taken_text numbers.now) }
{
    append_number(text, "turns", numbers.turns)?;
    append_number(text, "datagrams", numbers.datagrams)?;
    append_number(text, "controls", numbers.controls)?;
    append_number(text, "bad_controls", numbers.bad_controls)
}

// What went out, and what memory refused.
#[tactic(auto, unfolding(crate::specs::Replies::sent_text))]
fn append_sent(text: &mut Bytes, numbers: &Numbers) -> Result<(), AllocError>
    ensures { OnOk result (text.new ≡ text.old ++ sent_text numbers.now) }
{
    append_number(text, "delivered", numbers.delivered)?;
    append_number(text, "unsent", numbers.unsent)?;
    append_number(text, "starved", numbers.starved)
}

impl Numbers {
    /// Those after so many whole turns.
    pub(crate) fn of(turns: u64, counts: &Counts) -> Numbers
        ensures { result ≡ record {
          turns = turns;
          datagrams = counts.now.datagrams;
          controls = counts.now.controls;
          bad_controls = counts.now.bad_controls;
          delivered = counts.now.delivered;
          unsent = counts.now.unsent;
          starved = counts.now.starved;
        } }
    {
        Numbers {
            turns,
            datagrams: counts.datagrams,
            controls: counts.controls,
            bad_controls: counts.bad_controls,
            delivered: counts.delivered,
            unsent: counts.unsent,
            starved: counts.starved,
        }
    }

    /// Puts a line for each number at the end.
    pub(crate) fn append(&self, text: &mut Bytes) -> Result<(), AllocError>
        ensures { OnOk result (text.new ≡ text.old ++ numbers_text self.now) }
    {
        append_taken(text, self)?;
        append_sent(text, self)
    }
}

impl GatewayServed {
    // Those of the report.
    fn numbers(&self) -> Numbers
        ensures { result ≡ numbers_in self.now }
    {
        Numbers {
            turns: self.turns,
            datagrams: self.datagrams,
            controls: self.controls,
            bad_controls: self.bad_controls,
            delivered: self.delivered,
            unsent: self.unsent,
            starved: self.starved,
        }
    }

    /// Puts a line for each of its numbers at the end.
    pub fn append_numbers(&self, text: &mut Bytes) -> Result<(), AllocError>
        ensures { OnOk result (text.new ≡ text.old ++ numbers_text (numbers_in self.now)) }
    {
        self.numbers().append(text)
    }
}
