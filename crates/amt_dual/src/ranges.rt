//! What the type of events says of its numbers, for contracts.

ghost use Rattle.amt_dual.specs.Schedule.{DualFitsItsType};

use crate::event::DualPairEvent;
use amt_pair::gateway_event_fits;

/// A contract knows the range of a number once it is read.
pub fn dual_event_fits(event: &DualPairEvent)
    ensures { DualFitsItsType event.now }
{
    match event {
        DualPairEvent::Moment(_) => {}
        DualPairEvent::Rotate(_) => {}
        DualPairEvent::Packet { .. } => {}
        DualPairEvent::Socket { event, .. } => gateway_event_fits(event),
        DualPairEvent::Up(_) => {}
        DualPairEvent::Down(_) => {}
    }
}
