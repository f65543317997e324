//! The answer of a device that failed, and the count that is its evidence.

ghost use Rattle.std.specs.Prelude.{◌≡◌, ◌≤◌};
ghost use Rattle.amt_ports.specs.Causes.{next_count};

/// The answer of a call to a device that failed. The device's count of faults is the evidence.
#[derive(Clone, Copy, Debug, PartialEq, Eq)]
pub struct Failed;

// Each failure of a device goes through here, so that none is answered and not counted.
pub(crate) fn count_fault(faults: &mut u64) -> Failed
    ensures counted { faults.new ≡ next_count faults.old }
    ensures later { faults.old ≤ faults.new }
{
    *faults = faults.saturating_add(1);
    Failed
}
