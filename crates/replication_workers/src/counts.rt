//! What is counted of the jobs that a replicator handles.
ghost use Rattle.std.specs.Prelude.{◌≡◌, ◌≤◌, ◌<◌, ◌+◌, ◌*◌, ◌^◌};

use crate::job::Copied;

mod handling;

pub use handling::handle;

/// What was counted since a replicator was given.
#[derive(Drop)]
pub struct Counts {
    /// How many jobs it handled.
    pub jobs: u64,
    /// How many datagrams were sent.
    pub sent: u64,
    /// How many the device didn't take.
    pub unsent: u64,
    ghost few: { sent + unsent ≤ 65536 * jobs },
}

impl Counts {
    pub fn none() -> Counts
        ensures { (result.jobs ≡ 0) × (result.sent ≡ 0) × (result.unsent ≡ 0) }
    {
        Counts {
            jobs: 0,
            sent: 0,
            unsent: 0,
        }
    }

    fn add(&mut self, copied: &Copied)
        requires jobs { self.old.jobs < 2 ^ 46 }
        requires few { copied.now.sent + copied.now.unsent ≤ 65536 }
        ensures jobs { self.new.jobs ≡ self.old.jobs + 1 }
        ensures sent { self.new.sent ≡ self.old.sent + copied.now.sent }
        ensures unsent { self.new.unsent ≡ self.old.unsent + copied.now.unsent }
    {
        let sent = self.sent + u64::from(copied.sent);
        let unsent = self.unsent + u64::from(copied.unsent);
        self.jobs += 1;
        self.sent = sent;
        self.unsent = unsent;
    }
}
