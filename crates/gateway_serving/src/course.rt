//! The events of a run so far. None of that is kept: it is for contracts alone.
ghost use Rattle.std.specs.Prelude.{◌≡◌, [], ◌∷◌, ◌++◌};
ghost use Rattle.gateway_serving.specs.Courses.{events_so_far};

use gateway_machine::GatewayEvent;
use std::snapshot::Snapshot;

/// Events, the newest last.
#[derive(Drop)]
pub enum Course {
    Start,
    Then(Snapshot<Course>, Snapshot<GatewayEvent>),
}

impl Course {
    /// No event.
    pub fn new() -> Course
        ensures { events_so_far result ≡ [] }
    {
        Course::Start
    }

    /// The events, and then this one.
    pub fn then(&self, event: &GatewayEvent) -> Course
        ensures { events_so_far result ≡ events_so_far self.now ++ event.now ∷ [] }
    {
        Course::Then(Snapshot::of(self), Snapshot::of(event))
    }
}
