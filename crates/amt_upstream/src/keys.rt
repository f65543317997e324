//! What changes are counted by.

ghost use Rattle.std.specs.Prelude.{◌≡◌, ◌++◌, map, IfOk, OnOk};
ghost use Rattle.amt_upstream.specs.Counting.{counted_by, keys_after, keys_before, keys_if, keys_of, source_key};

use crate::count_key::{CountKey, Counted};
use amt_values::{Endpoint, Ip};
use endpoint_membership::MembershipChange;
use source_filter::{Filter, Mode};
use std::alloc::{AllocError, Global};

/// What the filters before the changes are counted by.
pub fn keys_before(alloc: Global, changes: &[MembershipChange]) -> Result<Vec<CountKey>, AllocError>
    ensures { IfOk result (λ keys. keys.items ≡ keys_before changes.now) }
{
    let mut keys = Vec::new(alloc);
    for change in changes {
        push_if(&mut keys, change.group, change.endpoint, &change.before)?;
    }
    Ok(keys)
}

/// What the filters after the changes are counted by.
pub fn keys_after(alloc: Global, changes: &[MembershipChange]) -> Result<Vec<CountKey>, AllocError>
    ensures { IfOk result (λ keys. keys.items ≡ keys_after changes.now) }
{
    let mut keys = Vec::new(alloc);
    for change in changes {
        push_if(&mut keys, change.group, change.endpoint, &change.after)?;
    }
    Ok(keys)
}

// Adds what a filter is counted by, if there is one.
fn push_if(
    keys: &mut Vec<CountKey>,
    group: Ip,
    endpoint: Endpoint,
    filter: &Option<Filter>,
) -> Result<(), AllocError>
    ensures { OnOk result
        (keys.new.items ≡ keys.old.items ++ keys_if group endpoint filter.now) }
{
    match filter {
        Some(filter) => push_keys(keys, group, endpoint, filter),
        None => Ok(()),
    }
}

// Adds what the filter is counted by.
fn push_keys(
    keys: &mut Vec<CountKey>,
    group: Ip,
    endpoint: Endpoint,
    filter: &Filter,
) -> Result<(), AllocError>
    ensures { OnOk result
        (keys.new.items ≡ keys.old.items ++ keys_of group endpoint filter.now) }
{
    let mode = filter.mode();
    if let Mode::Exclude = mode {
        keys.push(CountKey {
            group,
            counted: Counted::Excluders,
        })?;
        keys.push(CountKey {
            group,
            counted: Counted::Excluder(endpoint),
        })?;
    }
    push_sources(keys, mode, group, filter.sources())
}

// Adds what the sources of a filter of this mode are counted by.
fn push_sources(
    keys: &mut Vec<CountKey>,
    mode: Mode,
    group: Ip,
    sources: &[Ip],
) -> Result<(), AllocError>
    ensures { OnOk result
        (keys.new.items ≡ keys.old.items ++ map (source_key mode group) sources.now) }
{
    for source in sources {
        let counted = counted_by(mode, *source);
        keys.push(CountKey { group, counted })?;
    }
    Ok(())
}

fn counted_by(mode: Mode, source: Ip) -> Counted
    ensures { result ≡ counted_by mode source }
{
    match mode {
        Mode::Include => Counted::Including(source),
        Mode::Exclude => Counted::Excluding(source),
    }
}
