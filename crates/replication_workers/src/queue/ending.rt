//! How a queue ends.
ghost use Rattle.std.specs.Prelude.{◌≡◌};
ghost use Rattle.crossbeam_channel.specs.{Claims.{IsSeatAt, view}, Ends.{sends_on}};
ghost use Rattle.replication_workers.specs.Queue.{HasEnded, HasStopped, jobs_of};

use super::{Ends, QueuePass, Sender, Totals};

/// Takes in the pass of a taker that has taken Stop: it took all jobs that were put.
pub fn take_in(sender: &Sender, mut pass: QueuePass, ended: QueuePass)
    requires seats { IsSeatAt (sends_on sender.now) pass × IsSeatAt (sends_on sender.now) ended }
    requires stopped { HasStopped (view pass) }
    requires ended { HasEnded (view ended) }
    ensures { jobs_of (view ended).taken ≡ jobs_of (view pass).put }
{
    sender.absorb::<Ends>(&mut pass, ended);
    sender.learn_as::<Totals>(&mut pass);
}
