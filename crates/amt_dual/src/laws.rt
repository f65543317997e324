//! How a schedule goes on.
ghost use Rattle.std.specs.Prelude.{◌≡◌, ◌++◌, ◌∷◌, [], List};
ghost use Rattle.amt_dual.specs.{Schedule.{DualFitsItsType, DualMayCome, dual_course_of, with_dual_pair_event}, Setup.{DualSetup, machines_in}, State.{DualPairAt, StandsFor, machines}, declared.{event.DualPairEvent.{DualPairEvent}, pair.DualPair.{DualPair}}};

/// Where a schedule leads to a pair, the schedule with one more event leads to the pair after it: `next`
/// and `fits` of `DualPair::step` say of each step that isn't starved what is asked here.
pub fn steps_extend_schedules()
    ensures { (before after : DualPair) (setup : DualSetup) (schedule : List DualPairEvent) (event : DualPairEvent)
        → DualPairAt before setup schedule → DualMayCome (machines before) event → DualFitsItsType event
        → StandsFor after (machines_in setup) (with_dual_pair_event (machines_in setup) (dual_course_of setup schedule) event)
        → DualPairAt after setup (schedule ++ event ∷ []) }
{}
