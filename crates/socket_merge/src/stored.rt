//! What is kept of a socket, and what farewells come to.

ghost use Rattle.std.specs.Prelude.{◌≡◌};
ghost use Rattle.source_filter.specs.Filter.{wants_any};
ghost use Rattle.socket_merge.specs.{FullReport.{is_recent}, Refusal.{may_be_due}, Kept.{left_after, left_fresh}};

use amt_values::{Bytes, Ip, Moment};
use source_filter::{Filter, Mode};

/// An open socket (RFC 3376, section 3.1); its name is a list of octets.
#[derive(Debug, Drop)]
pub struct Socket {
    pub name: Bytes,
    pub group: Ip,
    pub filter: Filter,
}

pub fn wants_any(filter: &Filter) -> bool
    ensures { result ≡ wants_any filter.now }
{
    match filter.mode() {
        Mode::Include => !filter.sources().is_empty(),
        Mode::Exclude => true,
    }
}

/// The farewell of a group after a call at the moment, by whether it is wanted then and was before.
pub fn left_after(wanted: bool, before: bool, moment: Moment, left: Option<u64>) -> Option<u64>
    ensures { result ≡ left_after wanted before moment left }
{
    if wanted {
        return None;
    }
    if before {
        return Some(moment.ms());
    }
    left
}

/// The farewell, unless it can't be due any more.
pub fn left_fresh(moment: Moment, left: Option<u64>) -> Option<u64>
    ensures { result ≡ left_fresh moment left }
{
    if may_be_due(moment, left) { left } else { None }
}

/// Whether a farewell may still be due: the group was left at most 100,000 s before.
pub fn may_be_due(moment: Moment, left: Option<u64>) -> bool
    ensures { result ≡ may_be_due moment left }
{
    match left {
        Some(left) => moment.ms() <= left.saturating_add(LONGEST_FAREWELL_MS),
        None => false,
    }
}

/// Whether a farewell that lasts so long is due at the moment.
pub fn is_recent(at: Moment, keep_ms: u64, left: Option<u64>) -> bool
    ensures { result ≡ is_recent at keep_ms left }
{
    match left {
        Some(left) => at.ms() < left.saturating_add(keep_ms.min(LONGEST_FAREWELL_MS)),
        None => false,
    }
}

// How long a farewell may last.
const LONGEST_FAREWELL_MS: u64 = 100_000_000;
