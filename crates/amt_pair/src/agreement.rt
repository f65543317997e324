//! What both ends agree on after any schedule, whatever of their datagrams is lost, repeated or reordered.
ghost use Rattle.std.specs.Prelude.{◌≡◌, false, List, All, map};
ghost use Rattle.amt_values.specs.{EndpointValue.{EndpointValue}, declared.address.Ip.{Ip}};
ghost use Rattle.endpoint_membership.specs.Admission.{rows_admit};
ghost use Rattle.relay_machine.specs.{Accepted.{accepted_log}, Answers.{rows_after}};
ghost use Rattle.amt_pair.specs.{Agreement.{CountsInTime, IsActive, IsHeard, IsInTime, Names, relay_admits, wanted_then, wants_now}, Schedule.{IsPairEvent, Member, course_of}, Sent.{SentReport}, Setup.{IsLawfulSetup, PairSetup}, declared.event.PairEvent.{PairEvent}};

/// Where a gateway's latest full report made the last entry of its endpoint, and reports still count from
/// then on, the relay forwards to it what its sockets wanted when the report was sent, in each group that
/// the report names. No delivery need be in time for it.
pub fn named_groups_agree()
    ensures { (setup : PairSetup) (schedule : List PairEvent) (member : Member)
        (endpoint : EndpointValue) (report : SentReport) (group source : Ip)
        → IsLawfulSetup setup → All (IsPairEvent setup.hosts) schedule
        → IsHeard setup schedule member endpoint report → Names report group
        → relay_admits setup schedule endpoint group source ≡ wanted_then report group source }
{}

/// Where besides no datagram of the gateway comes more than a minute after it was sent, and reports count
/// for at most 99,940 seconds, the same holds of every group: farewells are repeated for that minute longer
/// than any report counts, so what an old report wants of a group that is left is made good.
pub fn all_groups_agree()
    ensures same { (setup : PairSetup) (schedule : List PairEvent) (member : Member)
        (endpoint : EndpointValue) (report : SentReport) (group source : Ip)
        → IsLawfulSetup setup → All (IsPairEvent setup.hosts) schedule
        → CountsInTime setup → IsInTime setup schedule member.host.peer
        → IsHeard setup schedule member endpoint report
        → relay_admits setup schedule endpoint group source ≡ wanted_then report group source }

    // Of a group that the report doesn't name no socket wanted anything.
    ensures unnamed { (setup : PairSetup) (schedule : List PairEvent) (member : Member)
        (endpoint : EndpointValue) (report : SentReport) (group source : Ip)
        → IsLawfulSetup setup → All (IsPairEvent setup.hosts) schedule
        → IsHeard setup schedule member endpoint report → ¬ Names report group
        → wanted_then report group source ≡ false }
{}

/// While the gateway is Active, what its sockets wanted then is what they want now: what is joined is what
/// is forwarded.
pub fn both_ends_agree()
    ensures forwarded { (setup : PairSetup) (schedule : List PairEvent) (member : Member)
        (endpoint : EndpointValue) (report : SentReport) (group source : Ip)
        → IsLawfulSetup setup → All (IsPairEvent setup.hosts) schedule
        → CountsInTime setup → IsInTime setup schedule member.host.peer
        → IsHeard setup schedule member endpoint report → IsActive member
        → relay_admits setup schedule endpoint group source ≡ wants_now member group source }

    // After every schedule the memberships that the relay shows let in what it forwards, of each group at
    // each endpoint. So this agreement and the two above hold of what is shown.
    ensures shown { (setup : PairSetup) (schedule : List PairEvent) (endpoint : EndpointValue)
        (group source : Ip)
        → rows_admit (rows_after setup.settings setup.secret (course_of setup schedule).relay) endpoint group source
        ≡ relay_admits setup schedule endpoint group source }
{}

/// The entries of a course are the accepted log of the relay's events: the last of an endpoint is the last
/// that the relay accepted of it.
pub fn entries_are_the_accepted_log()
    ensures { (setup : PairSetup) (schedule : List PairEvent)
        → map (λ entry. entry.change) (course_of setup schedule).entries
        ≡ accepted_log setup.settings setup.secret (course_of setup schedule).relay }
{}
