//! The query that the inner octets of a Query carry.

ghost use Rattle.std.specs.Prelude.{◌≡◌, ◌≤◌, ◌<◌, length, IfOk};
ghost use Rattle.group_records.specs.Code.{code_count};
ghost use Rattle.socket_merge.specs.Refusal.{family_of};
ghost use Rattle.amt_dump.specs.Queries.{carried_query, query_in};

use amt_values::{Ip, wire16};
use igmp_records::read_query4;
use inner_datagrams::{Inner, read_inner};
use mld_records::read_query6;
use relay_machine::Unlawful;
use source_filter::{QueryRead, ReportFault};

// The query that a datagram carries: of MLDv2 over IPv6, whose checksum counts the datagram's addresses,
// and else of IGMPv3.
#[tactic(auto, using(crate::proofs::Readings::code_of_query4, crate::proofs::Readings::code_of_query6))]
fn carried_query(place: &Inner, payload: &[u8]) -> Result<QueryRead, ReportFault>
    requires { length payload.now ≤ 65535 }
    ensures value { result ≡ carried_query place.now.source place.now.destination payload.now }
    ensures code { IfOk result (λ query.
        query.fields.max_code < code_count (family_of query.group)) }
{
    match place.source {
        Ip::V4(_) => read_query4(payload),
        Ip::V6(source) => read_query6(source, wire16(&place.destination), payload),
    }
}

/// The query that the inner octets of a Query carry, or what is wrong with them.
pub fn read_query(inner: &[u8]) -> Result<QueryRead, Unlawful>
    requires { length inner.now ≤ 65535 }
    ensures value { result ≡ query_in inner.now }
    ensures code { IfOk result (λ query.
        query.fields.max_code < code_count (family_of query.group)) }
{
    let place = match read_inner(inner) {
        Ok(place) => place,
        Err(fault) => return Err(Unlawful::Inner(fault)),
    };
    let (_, payload) = inner.split_at(place.start);
    match carried_query(&place, payload) {
        Ok(query) => Ok(query),
        Err(fault) => Err(Unlawful::Report(fault)),
    }
}
