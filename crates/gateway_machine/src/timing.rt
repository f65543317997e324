//! How long a gateway waits, and what a General Query says of time.

ghost use Rattle.std.specs.Prelude.{◌≡◌, ◌<◌, ◌≤◌, ◌^◌, false};
ghost use Rattle.gateway_machine.specs.Timing.{farewell_ms, interval_of, lifetime_of, response_ms, robustness_of, wait_ms};
ghost use Rattle.socket_merge.specs.FullReport.{family_by};

use crate::exchange::LastQuery;
use igmp_records::code_value4;
use mld_records::code_value6;
use source_filter::QueryFields;

// How long a report counts by the default times, in milliseconds (RFC 3376, sections 8.1 to 8.4).
const DEFAULT_LIFETIME_MS: u64 = 260_000;

// How long a report may be under way, in milliseconds.
const LONGEST_DELAY_MS: u64 = 60_000;

// The longest time for which sockets keep farewells, in milliseconds.
const LONGEST_FAREWELL_MS: u64 = 100_000_000;

/// The wait after so many Discoveries or Requests with one nonce.
#[tactic(auto, using(crate::proofs::Waiting::wait_ms_late))]
pub fn wait_ms(tries: u8) -> u64
    ensures value { result ≡ wait_ms tries }
    ensures most { result ≤ 120000 }
{
    let seconds = match tries {
        0 | 1 => 1,
        2 => 2,
        3 => 4,
        4 => 8,
        5 => 16,
        6 => 32,
        7 => 64,
        _ => 120,
    };
    seconds * 1000
}

/// The Query Interval that a General Query states, in seconds.
pub fn interval_seconds(fields: &QueryFields) -> u32
    ensures { result ≡ interval_of fields.now }
{
    match code_value4(fields.interval_code) {
        0 => 125,
        seconds => seconds,
    }
}

fn robustness(fields: &QueryFields) -> u8
    ensures { result ≡ robustness_of fields.now }
{
    match fields.robustness {
        0 => 2,
        robustness => robustness,
    }
}

fn response_ms(v6: bool, fields: &QueryFields) -> u64
    requires { v6 ≡ false → fields.now.max_code < 256 }
    ensures value { result ≡ response_ms (family_by v6) fields.now }
    ensures most { result < 2 ^ 40 }
{
    if v6 {
        u64::from(code_value6(fields.max_code))
    } else {
        u64::from(code_value4(fields.max_code as u8)) * 100
    }
}

/// How long a report counts at the relay that sent this General Query.
#[tactic(auto, using(crate::proofs::Waiting::lifetime_fits))]
pub fn lifetime_ms(v6: bool, fields: &QueryFields) -> u64
    requires { v6 ≡ false → fields.now.max_code < 256 }
    ensures { result ≡ lifetime_of (family_by v6) fields.now }
{
    let interval_ms = u64::from(interval_seconds(fields)) * 1000;
    u64::from(robustness(fields)) * interval_ms + response_ms(v6, fields)
}

/// How long farewells are repeated.
pub fn farewell_ms(query: Option<LastQuery>) -> u64
    ensures { result ≡ farewell_ms query }
{
    let lifetime_ms = match query {
        Some(query) => query.lifetime_ms,
        None => DEFAULT_LIFETIME_MS,
    };
    lifetime_ms
        .saturating_add(LONGEST_DELAY_MS)
        .min(LONGEST_FAREWELL_MS)
}
