//! What holds of every run of a gateway, in the words of the standard.
ghost use Rattle.std.specs.Prelude.{◌≡◌, ℕ, List, [], ◌∷◌, ◌++◌, All, Some};
ghost use Rattle.amt_values.specs.declared.peer.Peer.{Peer};
ghost use Rattle.gateway_machine.specs.{declared.{event.GatewayEvent.{GatewayEvent}, settings.GatewaySettings.{GatewaySettings}}, Laws.{HasQuery, HasRelay, IsAuthorized, IsDirected, IsWantedPacket}, Runs.{answer_after, run_of}};

/// Each Update and each Teardown carries the response MAC and the nonce of a Query that the gateway
/// accepted: it came from the gateway's relay, in answer to the last Request before it (RFC 7450, section
/// 5.2.3.6).
pub fn updates_answer_queries()
    ensures { (settings : GatewaySettings) (first : ℕ) (events : List GatewayEvent)
        (event : GatewayEvent) → All (IsAuthorized settings first (events ++ event ∷ []))
        (answer_after settings first events event).sends }
{}

/// A packet is handed on as it stands in Multicast Data from the gateway's relay, and only where its
/// group is forwarded and some socket of it lets the packet's source in (RFC 7450, section 5.2.3.3).
pub fn packets_are_wanted()
    ensures { (settings : GatewaySettings) (first : ℕ) (events : List GatewayEvent)
        (event : GatewayEvent) (packet : List ℕ)
        → (answer_after settings first events event).deliver ≡ Some packet
        → IsWantedPacket settings first events event packet }
{}

/// A gateway that awaits a Query or packets knows its relay, and one that was set up with a relay never
/// has another.
pub fn states_have_relays()
    ensures known { (settings : GatewaySettings) (first : ℕ) (events : List GatewayEvent)
        → HasRelay (run_of settings first events).exchange.state
        (run_of settings first events).exchange.relay }
    ensures configured { (settings : GatewaySettings) (first : ℕ) (events : List GatewayEvent)
        (relay : Peer) → settings.relay ≡ Some relay
        → (run_of settings first events).exchange.relay ≡ Some relay }
{}

/// An active gateway has the Query whose MAC it reports changes by.
pub fn queries_are_kept()
    ensures { (settings : GatewaySettings) (first : ℕ) (events : List GatewayEvent)
        → HasQuery (run_of settings first events).exchange.state
        (run_of settings first events).exchange.query }
{}

/// Each Discovery goes to the relay discovery address, and each Request, Update and Teardown to the relay that
/// the gateway has after the event. It sends no other message, and none to anyone else: so it answers nobody but
/// its relay.
pub fn sends_go_to_the_relay()
    ensures { (settings : GatewaySettings) (first : ℕ) (events : List GatewayEvent)
        (event : GatewayEvent)
        → All (IsDirected settings (run_of settings first (events ++ event ∷ [])).exchange.relay)
        (answer_after settings first events event).sends }
{}
