//! How a gateway reads the relay's Queries, and how a schedule goes on.
ghost use Rattle.std.specs.Prelude.{◌≡◌, ◌<◌, ◌^◌, ◌++◌, ◌∷◌, [], ℕ, Bool, true, false, List, Ok};
ghost use Rattle.amt_messages.specs.{Layout.{spelling_of}, Messages.{IsGateway}};
ghost use Rattle.amt_values.specs.{EndpointValue.{EndpointValue}, declared.peer.Peer.{Peer}};
ghost use Rattle.gateway_machine.specs.{Answers.{event_answer, query_accepted}, General.{general_query_in}, Sends.{request}, Timing.{interval_of, lifetime_of}, declared.{event.GatewayEvent.TheVariants.{Datagram}, exchange.Exchange.{Exchange}, settings.GatewaySettings.{GatewaySettings}}};
ghost use Rattle.relay_machine.specs.{declared.settings.Settings.{Settings}, Queries.{general_query, query_fields, query_for}, Settings.{AreLawfulSettings, membership_interval_ms}};
ghost use Rattle.response_mac.specs.declared.secret.Secret.{Secret};
ghost use Rattle.socket_merge.specs.{History.{AcceptedCall}, FullReport.{family_by}};
ghost use Rattle.amt_pair.specs.{Queries.{AsksFor, HasQuerySources, IsAsking, query_of_relay}, Schedule.{FitsItsType, MayCome, course_of, with_pair_event}, Setup.{PairSetup}, State.{PairAt, StandsFor, hosts_of}, declared.{event.PairEvent.{PairEvent}, pair.Pair.{Pair}}};

/// What a relay says in its General Queries, of either family, is what a gateway takes them to say
/// (RFC 7450, section 5.1.4). Lawful settings have only times that codes stand for, and a
/// robustness and an interval that aren't zero, so nothing is rounded, and no default takes the
/// place of what is said.
pub fn relays_queries_are_accepted()
    ensures read { (settings : Settings) (v6 : Bool) → AreLawfulSettings settings
        → HasQuerySources settings
        → general_query_in v6 (general_query settings v6) ≡ Ok (query_fields settings v6) }
    ensures lifetime { (settings : Settings) (v6 : Bool) → AreLawfulSettings settings
        → lifetime_of (family_by v6) (query_fields settings v6) ≡ membership_interval_ms settings }
    ensures interval { (settings : Settings) (v6 : Bool) → AreLawfulSettings settings
        → interval_of (query_fields settings v6) ≡ settings.query_seconds }

    ensures accepted { (settings : Settings) (secret : Secret) (limited : Bool)
        (source : EndpointValue) (gateway : GatewaySettings) (exchange : Exchange)
        (history : List AcceptedCall) (relay : Peer) → AreLawfulSettings settings
        → HasQuerySources settings → IsGateway source → IsAsking exchange relay
        → event_answer gateway exchange history (Datagram relay
        (spelling_of (query_for settings secret gateway.v6 limited source exchange.nonce)))
        ≡ query_accepted gateway exchange history
        (query_of_relay settings secret source exchange.nonce) }
{}

/// A relay takes a gateway's Request for one of the gateway's family. One that is for a Linux relay is taken so
/// where Linux's gateways are served; any other relay takes it for IGMP (RFC 7450, section 5.1.3).
pub fn requests_ask_for_their_family()
    ensures asked { (settings : Settings) (gateway : GatewaySettings) (exchange : Exchange)
        → exchange.nonce < 2 ^ 32 → (gateway.linux_relay ≡ true → settings.linux_gateways ≡ true)
        → AsksFor settings gateway.v6 exchange.nonce (request gateway exchange) }
    ensures unserved { (settings : Settings) (gateway : GatewaySettings) (exchange : Exchange)
        → exchange.nonce < 2 ^ 32 → gateway.linux_relay ≡ true → settings.linux_gateways ≡ false
        → AsksFor settings false exchange.nonce (request gateway exchange) }
{}

/// Where a schedule leads to a pair, the schedule with one more event leads to the pair after it: `next`
/// and `fits` of `Pair::step` say of each step that isn't starved what is asked here.
pub fn steps_extend_schedules()
    ensures { (before after : Pair) (setup : PairSetup) (schedule : List PairEvent) (event : PairEvent)
        → PairAt before setup schedule → MayCome (hosts_of before) event → FitsItsType event
        → StandsFor after setup (with_pair_event setup (course_of setup schedule) event)
        → PairAt after setup (schedule ++ event ∷ []) }
{}
