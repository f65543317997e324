//! What both ends agree on after any schedule, of one family of a dual gateway.
ghost use Rattle.std.specs.Prelude.{◌≡◌, true, false, List, All, map};
ghost use Rattle.amt_values.specs.{EndpointValue.{EndpointValue}, declared.address.Ip.{Ip}};
ghost use Rattle.endpoint_membership.specs.Admission.{rows_admit};
ghost use Rattle.relay_machine.specs.{Accepted.{accepted_log}, Answers.{rows_after}};
ghost use Rattle.amt_pair.specs.{Agreement.{CountsInTime, IsActive, Names, wanted_then, wants_now}, Schedule.{Member}, Sent.{SentReport}};
ghost use Rattle.amt_dual.specs.{Agreement.{IsMachineHeard, IsMachineInTime, dual_admits}, Family.{is_group_of}, Schedule.{IsDualPairEvent, dual_course_of}, Setup.{DualSetup, IsLawfulDualSetup, machines_in}, declared.event.DualPairEvent.{DualPairEvent}};

/// Where a machine's latest full report made the last entry of its endpoint that concerns its family, and
/// reports still count from then on, the relay forwards to it what its sockets wanted when the report was
/// sent, in each group of the family that the report names. No delivery need be in time for it.
pub fn named_groups_agree()
    ensures { (setup : DualSetup) (schedule : List DualPairEvent) (machine : Member)
        (endpoint : EndpointValue) (report : SentReport) (group source : Ip)
        → IsLawfulDualSetup setup → All (IsDualPairEvent (machines_in setup).hosts) schedule
        → IsMachineHeard setup schedule machine endpoint report
        → is_group_of machine.host.settings.v6 group ≡ true → Names report group
        → dual_admits setup schedule endpoint group source ≡ wanted_then report group source }
{}

/// Where besides no datagram of this machine comes more than a minute after it was sent, and reports count
/// for at most 99,940 seconds, the same holds of every group of the family. The datagrams of the other
/// machine may come as late as they like.
pub fn every_group_agrees()
    ensures same { (setup : DualSetup) (schedule : List DualPairEvent) (machine : Member)
        (endpoint : EndpointValue) (report : SentReport) (group source : Ip)
        → IsLawfulDualSetup setup → All (IsDualPairEvent (machines_in setup).hosts) schedule
        → CountsInTime (machines_in setup) → IsMachineInTime setup schedule machine.host
        → IsMachineHeard setup schedule machine endpoint report
        → is_group_of machine.host.settings.v6 group ≡ true
        → dual_admits setup schedule endpoint group source ≡ wanted_then report group source }

    // Of a group that the report doesn't name no socket of this machine wanted anything.
    ensures unnamed { (setup : DualSetup) (schedule : List DualPairEvent) (machine : Member)
        (endpoint : EndpointValue) (report : SentReport) (group source : Ip)
        → IsLawfulDualSetup setup → All (IsDualPairEvent (machines_in setup).hosts) schedule
        → IsMachineHeard setup schedule machine endpoint report → ¬ Names report group
        → wanted_then report group source ≡ false }
{}

/// While the machine is Active, what its sockets wanted then is what they want now: what is joined in
/// either family is what is forwarded.
pub fn both_families_agree()
    ensures forwarded { (setup : DualSetup) (schedule : List DualPairEvent) (machine : Member)
        (endpoint : EndpointValue) (report : SentReport) (group source : Ip)
        → IsLawfulDualSetup setup → All (IsDualPairEvent (machines_in setup).hosts) schedule
        → CountsInTime (machines_in setup) → IsMachineInTime setup schedule machine.host
        → IsMachineHeard setup schedule machine endpoint report → IsActive machine
        → is_group_of machine.host.settings.v6 group ≡ true
        → dual_admits setup schedule endpoint group source ≡ wants_now machine group source }

    // After every schedule the memberships that the relay shows let in what it forwards, of each group at
    // each endpoint. So this agreement and the two above hold of what is shown.
    ensures shown { (setup : DualSetup) (schedule : List DualPairEvent) (endpoint : EndpointValue)
        (group source : Ip)
        → rows_admit (rows_after setup.settings setup.secret (dual_course_of setup schedule).relay) endpoint group source
        ≡ dual_admits setup schedule endpoint group source }

    // The entries of a course are the accepted log of the relay's events.
    ensures logged { (setup : DualSetup) (schedule : List DualPairEvent)
        → map (λ entry. entry.change) (dual_course_of setup schedule).entries
        ≡ accepted_log setup.settings setup.secret (dual_course_of setup schedule).relay }
{}
