//! The filter of a group by numbers.

ghost use Rattle.std.specs.{Prelude.{◌≡◌, ◌≤◌, ◌++◌, false, IfOk, IfSome, IfNone, OnOk}, List.{filter}, Option.{option_to_list}};
ghost use Rattle.amt_values.specs.{declared.address.Ip.{Ip as Address}, EndpointValue.{EndpointValue}, Ascending.{IsAscending, has}, Order.{ip_order}};
ghost use Rattle.source_filter.specs.{Filter.{ascending_sources}, declared.mode.Mode.TheVariants.{Include, Exclude}};
ghost use Rattle.endpoint_membership.specs.EndpointGroup.{same_group};
ghost use Rattle.amt_upstream.specs.{Counting.{ForRows, number}, Looking.{excludes, excluding_endpoint, included_source, is_common, is_included}, Upstream.{joined}, declared.count_key.Counted.TheVariants.{Excluder}};

use crate::count_key::{CountKey, Counted};
use crate::tally::Tally;
use amt_values::{Endpoint, Ip};
use source_filter::{Filter, Mode};
use std::alloc::{AllocError, Global};

fn is_of(key: &CountKey, group: &Ip) -> bool
    ensures { result ≡ same_group key.now.group group.now }
{
    key.group == *group
}

// Puts the source at the end that is counted as included, where the number is not 0.
fn append_included(key: &CountKey, number: usize, sources: &mut Vec<Ip>) -> Result<(), AllocError>
    ensures { OnOk result (sources.new.items
        ≡ sources.old.items ++ option_to_list (included_source key.now.counted number)) }
{
    if let Counted::Including(source) = key.counted {
        if number > 0 {
            sources.push(source)?;
        }
    }
    Ok(())
}

// The endpoint, where one is counted as excluding.
fn endpoint_of(key: &CountKey) -> Option<Endpoint>
    ensures { result ≡ excluding_endpoint key.now.counted }
{
    match key.counted {
        Counted::Excluder(endpoint) => Some(endpoint),
        _ => None,
    }
}

impl Tally {
    fn number_on(&self, group: &Ip, counted: Counted) -> usize
        ensures { result
            ≡ number self.now.numbers (record { group = group.now; counted = counted }) }
    {
        let key = CountKey {
            group: *group,
            counted,
        };
        self.number(&key)
    }

    fn is_included(&self, group: &Ip, source: &Ip) -> bool
        ensures { result ≡ is_included self.now.numbers group.now source.now }
    {
        self.number_on(group, Counted::Including(*source)) > 0
    }

    fn is_common(&self, group: &Ip, source: &Ip) -> bool
        ensures { result ≡ is_common self.now.numbers group.now source.now }
    {
        let excluders = self.number_on(group, Counted::Excluders);
        self.number_on(group, Counted::Excluding(*source)) == excluders
            && self.number_on(group, Counted::Including(*source)) == 0
    }

    /// Some endpoint whose membership in the group excludes. Numbers that came to 0 are passed over.
    pub fn excluder(&self, group: &Ip) -> Option<Endpoint>
        ensures some { IfSome result (λ endpoint.
            1 ≤ number self.now.numbers (record { group = group.now; counted = Excluder endpoint })) }
        ensures none { IfNone result ((endpoint : EndpointValue)
            → number self.now.numbers (record { group = group.now; counted = Excluder endpoint }) ≡ 0) }
    {
        let least = CountKey {
            group: *group,
            counted: Counted::Excluder(Endpoint::named(0, 0)),
        };
        let past = CountKey {
            group: *group,
            counted: Counted::Excluding(Ip::V4(0)),
        };
        for (key, number) in self.numbers.range(least..past) {
            if *number > 0 {
                return endpoint_of(key);
            }
        }
        None
    }

    /// EXCLUDE of those of the sources that every membership which excludes lists, and none includes.
    pub fn common(&self, alloc: Global, group: &Ip, sources: &[Ip]) -> Result<Filter, AllocError>
        requires { IsAscending ip_order sources.now }
        ensures { IfOk result (λ found. found
            ≡ record { mode = Exclude; sources = filter (is_common self.now.numbers group.now) sources.now }) }
    {
        let mut common = Vec::from_slice(alloc, sources)?;
        common.retain(|source| self.is_common(group, source));
        Filter::new(alloc, Mode::Exclude, common.as_slice())
    }

    /// INCLUDE of those of the sources that some membership includes.
    pub fn included_among(
        &self,
        alloc: Global,
        group: &Ip,
        sources: &[Ip],
    ) -> Result<Filter, AllocError>
        ensures { IfOk result (λ found. found ≡ record {
          mode = Include;
          sources = filter (is_included self.now.numbers group.now) (ascending_sources sources.now);
        }) }
    {
        let mut included = Vec::from_slice(alloc, sources)?;
        included.retain(|source| self.is_included(group, source));
        Filter::new(alloc, Mode::Include, included.as_slice())
    }

    /// The filter of a group of which no membership excludes. It goes over the counts of the sources
    /// that are included, and no others.
    pub fn included(&self, alloc: Global, group: &Ip) -> Result<Filter, AllocError>
        ensures { ForRows self.now.numbers (λ rows. excludes self.now.numbers group.now ≡ false → IfOk result (λ found.
            found ≡ joined rows group.now)) }
    {
        let sources = self.included_sources(alloc, group)?;
        Filter::new(alloc, Mode::Include, sources.as_slice())
    }

    // The sources of the group that some membership includes. Their counts stand last among the group's.
    fn included_sources(&self, alloc: Global, group: &Ip) -> Result<Vec<Ip>, AllocError>
        ensures { IfOk result (λ sources. (source : Address)
            → has ip_order sources.items source ≡ is_included self.now.numbers group.now source) }
    {
        let least = CountKey {
            group: *group,
            counted: Counted::Including(Ip::V4(0)),
        };
        let mut sources = Vec::new(alloc);
        for (key, number) in self.numbers.range(least..) {
            if !is_of(key, group) {
                break;
            }
            append_included(key, *number, &mut sources)?;
        }
        Ok(sources)
    }
}
