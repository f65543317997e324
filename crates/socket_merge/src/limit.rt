//! The first limit that a filter would pass.

ghost use Rattle.std.specs.{Prelude.{◌≡◌, ◌+◌, ◌-◌, ◌≤◌}};
ghost use Rattle.amt_values.specs.Conditions.{first_holding};
ghost use Rattle.socket_merge.specs.{Kept.{listed_in, listed_on, places_besides, raw_octets}, Refusal.{family_of, limit_conditions}};

use crate::family::family_of;
use crate::farewells::Farewells;
use crate::fault::SocketFault;
use crate::named::NamedSockets;
use amt_values::{Ip, Moment};
use group_records::{Family, ITEM_LIMIT, REPORT_LIMIT};

// How many sources the sockets of a group may list, with repeats.
const SOURCE_LIMIT: usize = 32;

// The first limit that the group passes where one of its sockets lists so many sources instead of
// those before.
pub fn limit_passed(
    named: &NamedSockets,
    farewells: &Farewells,
    group: &Ip,
    before: usize,
    after: usize,
    moment: Moment,
) -> Option<SocketFault>
    requires few { listed_on group.now named.now ≤ SOURCE_LIMIT }
    requires total { listed_in (family_of group.now) named.now ≤ REPORT_LIMIT }
    requires places { places_besides named.now (family_of group.now) moment group.now farewells.now ≤ REPORT_LIMIT }
    requires before { before ≤ listed_on group.now named.now }
    requires within { before ≤ listed_in (family_of group.now) named.now }
    requires after { after ≤ ITEM_LIMIT }
    ensures { result ≡ first_holding (limit_conditions (listed_on group.now named.now - before + after)
        (raw_octets (family_of group.now)
        (places_besides named.now (family_of group.now) moment group.now farewells.now + 1)
        (listed_in (family_of group.now) named.now - before + after))) }
{
    let (on, all) = named.listed(group);
    let sources = on - before + after;
    if sources > SOURCE_LIMIT {
        return Some(SocketFault::SourcesFull(sources as u32));
    }
    let octets = octets_after(named, farewells, group, all - before + after, moment);
    if octets > REPORT_LIMIT {
        return Some(SocketFault::ReportFull(octets as u32));
    }
    None
}

// The octets of the raw report of the group's family, where it has a place and its family lists so many sources.
fn octets_after(
    named: &NamedSockets,
    farewells: &Farewells,
    group: &Ip,
    sources: usize,
    moment: Moment,
) -> usize
    requires places { places_besides named.now (family_of group.now) moment group.now farewells.now ≤ REPORT_LIMIT }
    requires sources { sources ≤ 16778616 }
    ensures value { result ≡ raw_octets (family_of group.now)
        (places_besides named.now (family_of group.now) moment group.now farewells.now + 1) sources }
    ensures small { result ≤ 300000000 }
{
    let family = family_of(group);
    let places = farewells.places_besides(named, family, moment, group) + 1;
    raw_octets(family, places, sources)
}

// The octets of a report with so many records, in which nothing is merged, that list so many sources.
fn raw_octets(family: Family, records: usize, sources: usize) -> usize
    requires records { records ≤ 1401 }
    requires sources { sources ≤ 16778616 }
    ensures value { result ≡ raw_octets family records sources }
    ensures small { result ≤ 300000000 }
{
    match family {
        Family::V4 => 8 + records * 8 + sources * 4,
        Family::V6 => 8 + records * 20 + sources * 16,
    }
}
