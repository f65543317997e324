//! The octets of a head with a MAC and a nonce, and of a gateway.

ghost use Rattle.std.specs.Prelude.{◌≡◌, ◌∷◌, ◌++◌, length, IfOk, OnOk};
ghost use Rattle.byteorder.specs.Endian.{big_bytes};
ghost use Rattle.amt_messages.specs.{Messages.{IsGateway}, Layout.{gateway_octets}};

use amt_values::{Bytes, Endpoint, Mac48, octets_of_address};
use std::alloc::{AllocError, Global};

/// A Query of either family, and a Teardown, fit into so many octets.
const ROOM: usize = 128;

// The first 12 octets of a Query, an Update or a Teardown: type, flags, MAC and nonce.
pub fn write_head(
    alloc: Global,
    kind: u8,
    flags: u8,
    mac: &Mac48,
    nonce: u32,
) -> Result<Bytes, AllocError>
    ensures written { IfOk result (λ bytes. bytes ≡ kind ∷ flags ∷ (mac.now.0 ++ big_bytes 4 nonce)) }
    ensures mac { OnOk result (length mac.now.0 ≡ 6) }
{
    let mut bytes = Bytes::with_room(alloc, ROOM)?;
    bytes.append(&[kind, flags])?;
    bytes.append(&mac.0)?;
    bytes.append(&nonce.to_be_bytes())?;
    Ok(bytes)
}

fn octets_of_port(port: u16) -> [u8; 2]
    ensures { result ≡ big_bytes 2 port }
{
    port.to_be_bytes()
}

// Writes an endpoint as a Query and a Teardown carry it.
pub fn append_gateway(bytes: &mut Bytes, endpoint: &Endpoint) -> Result<(), AllocError>
    ensures appended { OnOk result (bytes.new ≡ bytes.old ++ gateway_octets endpoint.now) }
    ensures form { OnOk result (IsGateway endpoint.now) }
{
    bytes.append(&octets_of_port(endpoint.port()))?;
    bytes.append(&octets_of_address(endpoint.address()))?;
    Ok(())
}
