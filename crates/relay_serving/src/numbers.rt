//! The numbers of a running relay, as its answers to lines and its report have them.
ghost use Rattle.std.specs.Prelude.{◌≡◌, ◌++◌, OnOk};
ghost use Rattle.relay_serving.specs.{Replies.{kept_text, numbers_text, sent_text, taken_text}, Reports.{numbers_in}};

use crate::plan::ServeReport;
use amt_values::Bytes;
use control_lines::append_number;
use std::alloc::AllocError;

/// Numbers of a running relay.
#[derive(Clone, Copy, Debug, PartialEq, Eq)]
pub struct Numbers {
    /// The turns that were whole.
    pub turns: u64,
    pub datagrams: u64,
    pub packets: u64,
    pub updated: u64,
    pub torn: u64,
    /// Answers to datagrams, and copies.
    pub sent: u64,
    pub unsent: u64,
    /// The packets that were copied without workers.
    pub inline: u64,
    pub starved: u64,
    pub late: u64,
    /// The entries that aren't published yet, and those that are.
    pub owed: u64,
    pub published: u64,
}

// What came in.
#[tactic(auto, unfolding(crate::specs::Replies::taken_text))]
fn append_taken(text: &mut Bytes, numbers: &Numbers) -> Result<(), AllocError>
    ensures { OnOk result (text.new ≡ text.old ++ taken_text numbers.now) }
{
    append_number(text, "turns", numbers.turns)?;
    append_number(text, "datagrams", numbers.datagrams)?;
    append_number(text, "packets", numbers.packets)?;
    append_number(text, "updated", numbers.updated)?;
    append_number(text, "torn", numbers.torn)
}

// What went out.
#[tactic(auto, unfolding(crate::specs::Replies::sent_text))]
fn append_sent(text: &mut Bytes, numbers: &Numbers) -> Result<(), AllocError>
    ensures { OnOk result (text.new ≡ text.old ++ sent_text numbers.now) }
{
    append_number(text, "sent", numbers.sent)?;
    append_number(text, "unsent", numbers.unsent)?;
    append_number(text, "inline", numbers.inline)
}

// What became of events and entries.
#[tactic(auto, unfolding(crate::specs::Replies::kept_text))]
fn append_kept(text: &mut Bytes, numbers: &Numbers) -> Result<(), AllocError>
    ensures { OnOk result (text.new ≡ text.old ++ kept_text numbers.now) }
{
    append_number(text, "starved", numbers.starved)?;
    append_number(text, "late", numbers.late)?;
    append_number(text, "owed", numbers.owed)?;
    append_number(text, "published", numbers.published)
}

impl Numbers {
    /// Puts a line for each number at the end.
    pub(crate) fn append(&self, text: &mut Bytes) -> Result<(), AllocError>
        ensures { OnOk result (text.new ≡ text.old ++ numbers_text self.now) }
    {
        append_taken(text, self)?;
        append_sent(text, self)?;
        append_kept(text, self)
    }
}

impl ServeReport {
    // Those of the report that a running relay tells too.
    fn numbers(&self) -> Numbers
        ensures { result ≡ numbers_in self.now }
    {
        Numbers {
            turns: self.turns,
            datagrams: self.datagrams,
            packets: self.packets,
            updated: self.updated,
            torn: self.torn,
            sent: self.sent,
            unsent: self.unsent,
            inline: self.inline,
            starved: self.starved,
            late: self.late,
            owed: self.owed,
            published: self.published,
        }
    }

    /// Puts a line for each of its numbers at the end, but for the views apart, of which a running relay tells none.
    pub fn append_numbers(&self, text: &mut Bytes) -> Result<(), AllocError>
        ensures { OnOk result (text.new ≡ text.old ++ numbers_text (numbers_in self.now)) }
    {
        self.numbers().append(text)
    }
}
