//! What a running gateway counts.
ghost use Rattle.std.specs.Prelude.{◌≡◌, ◌<◌, ◌-◌, ◌^◌};
ghost use Rattle.gateway_serving.specs.Counting.{no_counts, with_send, with_starved};

/// Counts since the run began.
#[derive(Clone, Copy, Debug, PartialEq, Eq)]
pub struct Counts {
    /// Datagrams from the link, and lines from the control.
    pub datagrams: u64,
    pub controls: u64,
    /// Lines that make no socket call and ask for nothing.
    pub bad_controls: u64,
    /// Packets that were handed on.
    pub delivered: u64,
    /// What the link or the out didn't take.
    pub unsent: u64,
    /// Events, lines and answers to lines that memory refused.
    pub starved: u64,
}

impl Counts {
    /// Nothing is counted.
    pub(crate) fn new() -> Counts
        ensures { result ≡ no_counts }
    {
        Counts {
            datagrams: 0,
            controls: 0,
            bad_controls: 0,
            delivered: 0,
            unsent: 0,
            starved: 0,
        }
    }

    /// Counts a send that the device took or didn't.
    pub(crate) fn count_send(&mut self, taken: bool)
        requires { self.old.unsent < 2 ^ 64 - 1 }
        ensures { self.new ≡ with_send taken self.old }
    {
        if !taken {
            self.unsent += 1;
        }
    }

    /// Counts an event, a line or an answer that memory refused.
    pub(crate) fn count_starved(&mut self)
        requires { self.old.starved < 2 ^ 62 }
        ensures { self.new ≡ with_starved self.old }
    {
        self.starved += 1;
    }
}
