//! When a relay forwards nothing of a group to an endpoint.
ghost use Rattle.std.specs.Prelude.{ℕ, ◌≡◌, ◌≤◌, ◌<◌, ◌^◌, false, List};
ghost use Rattle.amt_values.specs.declared.address.Ip.{Ip};
ghost use Rattle.endpoint_membership.specs.{Admission.{is_admitted}, EndpointGroup.{EndpointGroup}, Log.{latest}, declared.change.Change.{Change}};
ghost use Rattle.gateway_machine.specs.{Settings.{HasSourceOfFamily}, declared.{event.GatewayEvent.{GatewayEvent}, settings.GatewaySettings.{GatewaySettings}}};
ghost use Rattle.amt_pair.specs.{Events.{AreEventsOf}, Sent.{sent_in}, Silence.{IsSilent, KeepsFarewells}};

/// If each report of the last lifetime says no more of a group than that it is left, or nothing of
/// it, nothing of the group is forwarded to the endpoint: the newest report on the group decides
/// of every source, and without one the membership has expired. Reports on other groups don't
/// keep it.
pub fn silent_entries_admit_nothing()
    ensures { (lifetime : ℕ) (endpoint_group : EndpointGroup) (source : Ip) (moment : ℕ)
        (log : List Change)
        → latest log ≤ moment
        → IsSilent lifetime log endpoint_group moment
        → is_admitted lifetime log endpoint_group source moment ≡ false }
{}

/// If a gateway's full report doesn't name a group, then all that the gateway said of the group in
/// the time before, for which it repeats farewells, is that it left it: each report of what it
/// wanted, which might still count at the relay, is older. So a lost report of leaving a group is
/// made good by each full report until nothing is left to take back.
pub fn farewells_are_kept()
    ensures { (settings : GatewaySettings) (first : ℕ) (events : List GatewayEvent)
        → HasSourceOfFamily settings
        → first < 2 ^ 32
        → AreEventsOf settings events
        → KeepsFarewells (sent_in settings first events) }
{}
