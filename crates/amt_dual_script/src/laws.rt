//! What the parts of a gateway are.
ghost use Rattle.std.specs.Prelude.{◌≡◌, ℕ, Bool, List, [], ◌∷◌, ◌++◌, map};
ghost use Rattle.amt_pair.specs.Schedule.{Member};
ghost use Rattle.amt_dual.specs.{Answers.{dual_start}, Parts.{dual_parts_of}, Schedule.{dual_course_of}, Setup.{DualSetup, machines_in}, State.{DualPairAt}, declared.{event.DualPairEvent.{DualPairEvent}, pair.DualPair.{DualPair}}};
ghost use Rattle.amt_dual_script.specs.AsDuals.{AreMachinesOfOne, course_of_both, event_for, settings_of_both, step_by_itself, steps_in, taken_by_itself};

/// The two machines of a gateway run as the definition of a dual gateway says of one by itself. They begin with no event,
/// as it does, and stay where they are. After every schedule they take of the next event what it takes, and keep their
/// settings. What the event comes to at either machine, by its parts, is what it comes to there.
pub fn gateways_step_as_dual_ones()
    ensures steps { (pair : DualPair) (setup : DualSetup) (schedule : List DualPairEvent) (event : DualPairEvent)
        (place : ℕ) (v4 v6 : Member) (family : Bool) → DualPairAt pair setup schedule
        → AreMachinesOfOne (dual_course_of setup schedule).members place v4 v6
        → steps_in v4.host.name family (dual_parts_of (machines_in setup) (dual_course_of setup schedule) event)
        ≡ step_by_itself (settings_of_both v4 v6) (course_of_both v4 v6) family
        (event_for (machines_in setup) (dual_course_of setup schedule) v4.host event) }
    ensures first { (setup : DualSetup) (place : ℕ) (v4 v6 : Member)
        → AreMachinesOfOne (dual_course_of setup []).members place v4 v6
        → course_of_both v4 v6 ≡ dual_start }
    ensures stay { (setup : DualSetup) (schedule : List DualPairEvent)
        → map (λ member. member.host) (dual_course_of setup schedule).members ≡ (machines_in setup).hosts }
    ensures next { (pair : DualPair) (setup : DualSetup) (schedule : List DualPairEvent) (event : DualPairEvent)
        (place : ℕ) (v4 v6 next4 next6 : Member) → DualPairAt pair setup schedule
        → AreMachinesOfOne (dual_course_of setup schedule).members place v4 v6
        → AreMachinesOfOne (dual_course_of setup (schedule ++ event ∷ [])).members place next4 next6
        → (course_of_both next4 next6 ≡ taken_by_itself (settings_of_both v4 v6) (course_of_both v4 v6)
        (event_for (machines_in setup) (dual_course_of setup schedule) v4.host event))
        × (settings_of_both next4 next6 ≡ settings_of_both v4 v6) }
{}
