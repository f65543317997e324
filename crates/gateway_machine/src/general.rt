//! The General Query that a Query carries, as a gateway of one family reads it.

ghost use Rattle.std.specs.Prelude.{◌≡◌, ◌<◌, ◌≤◌, ◌==◌, false, length, IfOk};
ghost use Rattle.amt_values.specs.Address.{number_of};
ghost use Rattle.gateway_machine.specs.General.{carried_query, general_fields, general_query_in};

use crate::outcome::Ignored;
use amt_values::{Ip, wire16};
use igmp_records::read_query4;
use inner_datagrams::{Inner, read_inner};
use mld_records::read_query6;
use source_filter::{QueryFields, QueryRead, ReportFault};

fn is_zero(group: &Ip) -> bool
    ensures { result ≡ (number_of group.now == 0) }
{
    match group {
        Ip::V4(number) => *number == 0,
        Ip::V6(number) => *number == 0,
    }
}

// The fields of a query of all groups.
fn general_fields(reading: Result<QueryRead, ReportFault>) -> Result<QueryFields, Ignored>
    ensures { result ≡ general_fields reading }
{
    match reading {
        Err(fault) => Err(Ignored::Body(fault)),
        Ok(query) => {
            if is_zero(&query.group) {
                Ok(query.fields)
            } else {
                Err(Ignored::NotGeneral(query.group))
            }
        }
    }
}

// The fields of the query in a datagram's payload: a query of MLDv2 over IPv6, or of IGMPv3 over IPv4.
fn carried_query(v6: bool, place: &Inner, payload: &[u8]) -> Result<QueryFields, Ignored>
    requires { length payload.now ≤ 65535 }
    ensures value { result ≡ carried_query v6 place.now.source place.now.destination payload.now }
    ensures code { v6 ≡ false → IfOk result (λ fields. fields.max_code < 256) }
{
    match place.source {
        Ip::V4(_) => {
            if v6 {
                return Err(Ignored::Family);
            }
            general_fields(read_query4(payload))
        }
        Ip::V6(source) => {
            if !v6 {
                return Err(Ignored::Family);
            }
            general_fields(read_query6(source, wire16(&place.destination), payload))
        }
    }
}

/// The fields of the General Query that inner octets carry, or why a gateway of the family ignores
/// them.
pub fn read_general(v6: bool, inner: &[u8]) -> Result<QueryFields, Ignored>
    requires { length inner.now ≤ 65535 }
    ensures value { result ≡ general_query_in v6 inner.now }
    ensures code { v6 ≡ false → IfOk result (λ fields. fields.max_code < 256) }
{
    let place = match read_inner(inner) {
        Ok(place) => place,
        Err(fault) => return Err(Ignored::Inner(fault)),
    };
    let (_, payload) = inner.split_at(place.start);
    carried_query(v6, &place, payload)
}
