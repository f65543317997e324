//! The gateways that lines have given. It knows no line.

ghost use Rattle.std.specs.Prelude.{◌≡◌};
ghost use Rattle.socket_merge.specs.History.{same_name};
ghost use Rattle.amt_dual_script.specs.Gateways.{is_name_given, is_peer_given};

use crate::script::DualGateway;
use amt_values::Peer;

fn has_name(gateway: &DualGateway, name: &[u8]) -> bool
    ensures { result ≡ same_name name.now gateway.now.name }
{
    name == gateway.name.as_slice()
}

/// Whether some gateway has this name.
pub fn is_name_given(gateways: &[DualGateway], name: &[u8]) -> bool
    ensures { result ≡ is_name_given gateways.now name.now }
{
    gateways.iter().any(|gateway| has_name(gateway, name))
}

/// Whether some gateway has this peer.
pub fn is_peer_given(gateways: &[DualGateway], peer: &Peer) -> bool
    ensures { result ≡ is_peer_given gateways.now peer.now }
{
    gateways.iter().any(|gateway| gateway.peer == *peer)
}
