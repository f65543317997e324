//! The gateways that lines have given. It knows no line.

ghost use Rattle.std.specs.Prelude.{◌≡◌, option_copied};
ghost use Rattle.socket_merge.specs.History.{same_name};
ghost use Rattle.pair_script.specs.Gateways.{family_of, gateway_named, is_peer_given};

use crate::script::PairGateway;
use amt_values::Peer;
use group_records::Family;

fn has_name(gateway: &PairGateway, name: &[u8]) -> bool
    ensures { result ≡ same_name name.now gateway.now.name }
{
    name == gateway.name.as_slice()
}

/// The gateway of this name.
pub fn gateway_named<'a>(gateways: &'a [PairGateway], name: &[u8]) -> Option<&'a PairGateway>
    ensures { option_copied result ≡ gateway_named gateways.now name.now }
{
    gateways.iter().find(|gateway| has_name(gateway, name))
}

/// Whether some gateway has this peer.
pub fn is_peer_given(gateways: &[PairGateway], peer: &Peer) -> bool
    ensures { result ≡ is_peer_given gateways.now peer.now }
{
    gateways.iter().any(|gateway| gateway.peer == *peer)
}

/// The family of a gateway's groups.
pub fn family_of(gateway: &PairGateway) -> Family
    ensures { result ≡ family_of gateway.now }
{
    if gateway.v6 { Family::V6 } else { Family::V4 }
}
