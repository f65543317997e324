//! How late it is, and when a new secret is due.
ghost use Rattle.std.specs.Prelude.{◌≡◌, ◌<◌, None, Some, max};
ghost use Rattle.relay_serving.specs.Turns.{is_due, renewed_after};

use amt_values::Moment;

/// The latest moment that the clock has given, 0 before the first turn, and the one at which the current secret
/// counts as drawn; none before the first turn.
#[derive(Drop)]
pub(crate) struct Renewal {
    pub(crate) latest: Moment,
    pub(crate) renewed: Option<Moment>,
}

impl Renewal {
    /// Before the first turn.
    pub(crate) fn new() -> Renewal
        ensures latest { result.latest ≡ 0 }
        ensures renewed { result.renewed ≡ None }
    {
        Renewal {
            latest: Moment::new(0).unwrap(),
            renewed: None,
        }
    }

    /// The clock has given this moment. It never becomes earlier.
    pub(crate) fn reach(&mut self, at: Moment)
        ensures latest { self.new.latest ≡ max self.old.latest at }
        ensures renewed { self.new.renewed ≡ self.old.renewed }
    {
        self.latest = self.latest.later(&at);
    }

    // Whether so many milliseconds have passed since the secret counts as drawn.
    fn due(&self, rotate_ms: u64) -> bool
        ensures { result ≡ is_due rotate_ms self.now.renewed self.now.latest }
    {
        match &self.renewed {
            // A moment is below 2^62, so that a sum past the last number is due as little as the last one.
            Some(renewed) => renewed.ms().saturating_add(rotate_ms) <= self.latest.ms(),
            None => false,
        }
    }

    /// Whether a new secret is to be drawn, so many milliseconds after the last one; if so, it counts as
    /// drawn now. The first one counts as drawn in the first turn.
    pub(crate) fn pass(&mut self, rotate_ms: u64) -> bool
        ensures due { result ≡ is_due rotate_ms self.old.renewed self.old.latest }
        ensures renewed { self.new.renewed
            ≡ Some (renewed_after rotate_ms self.old.renewed self.old.latest) }
        ensures latest { self.new.latest ≡ self.old.latest }
    {
        let due = self.due(rotate_ms);
        if due || self.renewed.is_none() {
            self.renewed = Some(self.latest);
        }
        due
    }
}
