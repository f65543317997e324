//! A running relay: its machine, the published table, and what copies packets by that.
ghost use Rattle.std.{specs.Prelude.{◌≡◌, ◌++◌}, proofs.Props.{props}};
ghost use Rattle.published_table.specs.Publishers.{book_of, owing, published, reading_terms};
ghost use Rattle.relay_machine.specs.{Answers.{RelayAt, settings_of}, Published.{published_log}, Settings.{AreLawfulSettings}};
ghost use Rattle.relay_serving.specs.{Counting.{IsCounted}, OutcomeWords.{IsTallied}, Courses.{events_so_far, happenings_so_far, published_events_so_far}, GivenOut.{AreGivenOut, AreOfPublisher, terms_by}};
ghost use Rattle.replication_workers.specs.Dispatchers.{slots_of};

use crate::counts::Counts;
use crate::course::Course;
use crate::outcomes::Outcomes;
use amt_ports::OutLink;
use published_table::Publisher;
use relay_machine::Relay;
use replication_workers::Dispatcher;
use response_mac::Secret;
use std::snapshot::Snapshot;

mod asking;
mod ending;
mod entering;
mod feeding;
mod hearing;
mod publishing;
mod replying;
mod starting;
mod turning;

pub(crate) use ending::Ending;
pub(crate) use starting::NotStarted;

/// A running relay. It isn't `Drop`: end it by `finish`.
pub(crate) struct Server<O: OutLink, T> {
    relay: Relay,
    publisher: Publisher,
    dispatcher: Dispatcher<O, T>,
    counts: Counts,
    outcomes: Outcomes,
    first: Snapshot<Secret>,
    course: Course,
    ghost at: { RelayAt relay (settings_of relay) first.value (events_so_far course) } by { Prim.hlevel props },
    ghost lawful: { ∥ AreLawfulSettings (settings_of relay) ∥₁ },
    ghost log: { published publisher ++ owing publisher
        ≡ published_log (settings_of relay) first.value (events_so_far course) },
    ghost shown: { published publisher
        ≡ published_log (settings_of relay) first.value (published_events_so_far course) },
    ghost terms: { reading_terms publisher ≡ terms_by (settings_of relay) },
    ghost given_out: { ∥ AreGivenOut (settings_of relay) first.value (happenings_so_far course)
        (slots_of dispatcher) ∥₁ },
    ghost publishers: { AreOfPublisher (book_of publisher) (slots_of dispatcher) },
    ghost counted: { IsCounted (settings_of relay) first.value (events_so_far course) counts },
    ghost tallied: { IsTallied (settings_of relay) first.value (events_so_far course) outcomes },
}
