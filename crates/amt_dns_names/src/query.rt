//! The query for a source's relays.

ghost use Rattle.std.specs.Prelude.{◌≡◌, ◌+◌, length, IfOk};
ghost use Rattle.amt_dns_names.specs.{Name.{name_wire}, NameAt.{NameAt}, Query.{query_of}};

use crate::name::Name;
use amt_values::Bytes;
use std::alloc::{AllocError, Global};

// A standard query with recursion desired; one question, nothing else (RFC 1035, section 4.1.1).
const FLAGS_AND_COUNTS: [u8; 10] = [1, 0, 0, 1, 0, 0, 0, 0, 0, 0];

// AMTRELAY (RFC 8777, section 4.1) and IN (RFC 1035, section 3.2.4).
const TYPE_AND_CLASS: [u8; 4] = [1, 4, 0, 1];

/// The query for the records of type AMTRELAY under a name (RFC 1035, section 4.1; RFC 8777,
/// section 4.1). The name stands at octet 12.
pub fn write_query(alloc: Global, id: u16, name: &Name) -> Result<Bytes, AllocError>
    ensures octets { IfOk result (λ query. query ≡ query_of id name.now) }
    ensures holds { IfOk result (λ query. NameAt query 12 name.now
        (12 + length (name_wire name.now))) }
{
    let wire = name.wire(alloc)?;
    let mut query = Bytes::with_room(alloc, 16 + wire.len())?;
    query.append(&id.to_be_bytes())?;
    query.append(&FLAGS_AND_COUNTS)?;
    query.append(wire.as_slice())?;
    query.append(&TYPE_AND_CLASS)?;
    Ok(query)
}
