//! What has happened in a run so far. None of that is kept: it is for contracts alone.
ghost use Rattle.std.specs.Prelude.{◌≡◌, [], ◌∷◌, ◌++◌};
ghost use Rattle.relay_machine.specs.declared.event.Event.TheVariants.{Packet};
ghost use Rattle.relay_serving.specs.{Courses.{happenings_so_far}, Happenings.{Published, Took}};

use amt_values::Bytes;
use relay_machine::Event;
use std::snapshot::Snapshot;

/// What happened, the newest last.
#[derive(Drop)]
pub enum Course {
    Start,
    /// An event was taken.
    Then(Snapshot<Course>, Snapshot<Event>),
    /// A packet came, of which no event was made.
    Fed(Snapshot<Course>, Snapshot<Bytes>),
    /// All that was owed is published.
    Shown(Snapshot<Course>),
}

impl Course {
    /// Nothing has happened.
    pub fn new() -> Course
        ensures { happenings_so_far result ≡ [] }
    {
        Course::Start
    }

    /// The same, and then this event.
    pub fn then(&self, event: &Event) -> Course
        ensures { happenings_so_far result ≡ happenings_so_far self.now ++ Took event.now ∷ [] }
    {
        Course::Then(Snapshot::of(self), Snapshot::of(event))
    }

    /// The same, and then that this packet came.
    pub fn fed(&self, packet: &Bytes) -> Course
        ensures { happenings_so_far result
            ≡ happenings_so_far self.now ++ Took (Packet packet.now) ∷ [] }
    {
        Course::Fed(Snapshot::of(self), Snapshot::of(packet))
    }

    /// The same, and then that all that was owed is published.
    pub fn shown(&self) -> Course
        ensures { happenings_so_far result ≡ happenings_so_far self.now ++ Published ∷ [] }
    {
        Course::Shown(Snapshot::of(self))
    }
}
