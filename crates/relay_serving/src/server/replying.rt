//! The texts by which a running relay answers lines.
ghost use Rattle.std.specs.Prelude.{◌≡◌, ◌==◌, ◌&&◌, ◌++◌, Some, codes, IfOk, OnOk, if◌then◌else◌};
ghost use Rattle.amt_values.specs.Endpoint.{endpoint_of};
ghost use Rattle.relay_serving.specs.{AskingServers.{standing_in}, OutcomeWords.{outcome_words}, Replies.{numbers_text, reply_text, rows_at, rows_text, told_text}, Servers.{first_in, settings_in}};
ghost use Rattle.control_lines.specs.{Tally.{number_line, tally_text}};

use super::Server;
use super::asking::Replies;
use crate::control::CopyCount;
use crate::numbers::Numbers;
use crate::outcomes::Outcomes;
use amt_ports::OutLink;
use amt_script::append_row;
use amt_values::{Bytes, Endpoint, Peer};
use control_lines::{Asking, append_number, bad_text};
use endpoint_membership::Row;
use script_lines::Reason;
use std::alloc::{AllocError, Global};

// Puts the lines of memberships at the end.
fn append_rows(text: &mut Bytes, rows: &[Row]) -> Result<(), AllocError>
    ensures { OnOk result (text.new ≡ text.old ++ rows_text rows.now) }
{
    for row in rows {
        append_row(text, row)?;
    }
    Ok(())
}

fn is_at(row: &Row, endpoint: &Endpoint) -> bool
    ensures { result ≡ (row.now.endpoint.address == endpoint.now.address && row.now.endpoint.port == endpoint.now.port) }
{
    row.endpoint.address() == endpoint.address() && row.endpoint.port() == endpoint.port()
}

// Puts those of the endpoint at the end.
fn append_rows_of(text: &mut Bytes, rows: &[Row], endpoint: &Endpoint) -> Result<(), AllocError>
    ensures { OnOk result (text.new ≡ text.old ++ rows_text (rows_at (Some endpoint.now) rows.now)) }
{
    for row in rows {
        if is_at(row, endpoint) {
            append_row(text, row)?;
        }
    }
    Ok(())
}

// The answer to `counts`, where there is this number of memberships.
fn counts_text(
    alloc: Global,
    rows: usize,
    numbers: &Numbers,
    outcomes: &Outcomes,
) -> Result<Bytes, AllocError>
    ensures { IfOk result (λ text. text ≡ numbers_text numbers.now
        ++ (number_line (codes "rows") rows ++ tally_text outcome_words outcomes.now.tally)) }
{
    let mut text = Bytes::new(alloc);
    numbers.append(&mut text)?;
    append_number(&mut text, "rows", rows as u64)?;
    outcomes.append(&mut text)?;
    Ok(text)
}

// The answer to `show`.
fn show_text(alloc: Global, rows: &[Row]) -> Result<Bytes, AllocError>
    ensures { IfOk result (λ text. text ≡ rows_text rows.now) }
{
    let mut text = Bytes::new(alloc);
    append_rows(&mut text, rows)?;
    Ok(text)
}

// The answer to `show PEER`.
fn show_text_of(alloc: Global, rows: &[Row], peer: &Peer) -> Result<Bytes, AllocError>
    ensures { IfOk result (λ text. text ≡ rows_text (rows_at (endpoint_of peer.now) rows.now)) }
{
    let mut text = Bytes::new(alloc);
    match Endpoint::of(peer) {
        Some(endpoint) => append_rows_of(&mut text, rows, &endpoint)?,
        None => {}
    }
    Ok(text)
}

// What is told to whoever asks for it, by the memberships and what was counted.
fn told_text(
    alloc: Global,
    asking: &Asking,
    rows: &[Row],
    numbers: &Numbers,
    outcomes: &Outcomes,
) -> Result<Bytes, AllocError>
    ensures { IfOk result (λ text. text ≡ told_text asking.now rows.now numbers.now outcomes.now.tally) }
{
    match asking {
        Asking::Counts => counts_text(alloc, rows.len(), numbers, outcomes),
        Asking::Show => show_text(alloc, rows),
        Asking::ShowOf(peer) => show_text_of(alloc, rows, peer),
        Asking::Stop => Ok(Bytes::new(alloc)),
    }
}

// The packets that are copied in the turns' own thread: all where there is no worker.
fn inline_of(workers: u32, packets: u64) -> u64
    ensures { result ≡ (if workers == 0 then packets else 0) }
{
    if workers == 0 { packets } else { 0 }
}

/// A relay that is asked after some whole turns.
#[derive(Drop)]
pub(super) struct Held<'a, O: OutLink, T> {
    pub(super) server: &'a Server<O, T>,
    pub(super) workers: u32,
    pub(super) turns: u64,
}

impl<O: OutLink + Drop, T> Replies for Held<'_, O, T> {
    ghost texts = { λ held. λ starved reading copied. reply_text (settings_in held.server.now) (first_in held.server.now) held.workers
        (record (standing_in held.turns held.server.now) { starved = starved }) reading copied };

    fn reply(
        &self,
        alloc: Global,
        starved: u64,
        reading: &Result<Asking, Reason>,
        copied: &CopyCount,
    ) -> Result<Bytes, AllocError> {
        match reading {
            Ok(Asking::Stop) => Ok(Bytes::new(alloc)),
            Ok(asking) => {
                let server = self.server;
                let counts = server.counts;
                let rows = server.relay.rows(alloc)?;
                let numbers = Numbers {
                    turns: self.turns,
                    datagrams: counts.datagrams,
                    packets: counts.packets,
                    updated: counts.updated,
                    torn: counts.torn,
                    sent: counts.sent.saturating_add(copied.sent),
                    unsent: counts.unsent.saturating_add(copied.unsent),
                    inline: inline_of(self.workers, counts.packets),
                    starved,
                    late: counts.late,
                    owed: server.publisher.owed(),
                    published: server.publisher.published(),
                };
                told_text(alloc, asking, rows.as_slice(), &numbers, &server.outcomes)
            }
            Err(reason) => bad_text(alloc, *reason),
        }
    }
}
