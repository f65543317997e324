//! What the definitions of a membership table mean in the words of the field.
ghost use Rattle.std.specs.Prelude.{ℕ, ◌≡◌, ◌≤◌, ◌<◌, ◌↔◌, max, true, false, List, ◌∷◌, ◌++◌, reverse, Some, None, Contains};
ghost use Rattle.amt_values.specs.{declared.address.Ip.{Ip}, Order.{endpoint_order}, EndpointValue.{EndpointValue}, Ascending.{IsAscending}};
ghost use Rattle.source_filter.specs.{Filter.{admits}, declared.record.Record.{Record}};
ghost use Rattle.endpoint_membership.specs.{Admission.{HasNoMembership, is_admitted, rows_admit}, Chain.{IsLongestChain}, Limits.{AreAtMost, IsWithin}, Log.{latest, live_chain}, EndpointGroup.{EndpointGroup}, Memberships.{is_live, rows_of, membership_at, memberships_at}, Targets.{targets_of}, Table.{ReportFits, TableSettings, limit_passed, memberships_with, memberships_without}, declared.{change.Change.{Change, TheVariants.{Clear, Mark}}, limits.Limits.{Limits}}, Membership.{Membership}};

/// A membership lasts as long as reports renew it in time (RFC 3376, section 8.4): what counts of an
/// endpoint in a group is the longest run of its newest renewals in which no gap, and none up to the
/// moment, is as long as a lifetime.
pub fn live_chains_are_longest()
    ensures { (lifetime : ℕ) (endpoint_group : EndpointGroup) (moment : ℕ) (log : List Change)
        → let past = reverse log in
        IsLongestChain lifetime endpoint_group moment past
        (live_chain lifetime endpoint_group moment past) }
{}

/// A row lets in a source exactly where the newest record that applies to the source wants it (RFC
/// 3376, section 4.2.12), so keeping a filter instead of the records loses nothing. Where there
/// is no row, no source is wanted. So the rows together let in, of an endpoint and a group, what the
/// log admits.
pub fn rows_admit_by_the_newest_record()
    ensures row { (lifetime : ℕ) (log : List Change) (endpoint_group : EndpointGroup)
        (source : Ip) (moment : ℕ)
        (membership : Membership)
        → latest log ≤ moment
        → membership_at lifetime moment (reverse log) endpoint_group ≡ Some membership
        → admits membership.filter source ≡ is_admitted lifetime log endpoint_group source moment }
    ensures no_row { (lifetime : ℕ) (log : List Change) (endpoint_group : EndpointGroup)
        (source : Ip) (moment : ℕ)
        → latest log ≤ moment
        → membership_at lifetime moment (reverse log) endpoint_group ≡ None
        → is_admitted lifetime log endpoint_group source moment ≡ false }
    ensures rows { (lifetime : ℕ) (log : List Change) (endpoint : EndpointValue) (group source : Ip)
        (moment : ℕ)
        → latest log ≤ moment
        → rows_admit (rows_of lifetime moment log) endpoint group source
        ≡ is_admitted lifetime log (record { endpoint = endpoint; group = group }) source moment }
{}

/// A packet is copied to an endpoint exactly where the newest record that applies to its source
/// wants it (RFC 3376, section 4.2.12), and once to each: the targets are in their order, with no
/// repeats.
pub fn targets_are_those_that_want()
    ensures wanted { (lifetime : ℕ) (log : List Change) (group source : Ip) (moment : ℕ)
        (endpoint : EndpointValue)
        → Contains (targets_of lifetime log group source moment) endpoint
        ↔ (is_admitted lifetime log (record { endpoint = endpoint; group = group }) source moment
        ≡ true) }
    ensures ascending { (lifetime : ℕ) (log : List Change) (group source : Ip) (moment : ℕ)
        → IsAscending endpoint_order (targets_of lifetime log group source moment) }
{}

/// A clearing of an endpoint with no membership needs no entry in the log: with no more than its
/// moment there the memberships are the same from then on, whatever is accepted later. `Table::clear`
/// answers whether its endpoint was live.
pub fn clearings_change_nothing_where_none_is_live()
    ensures membership { (lifetime : ℕ) (log later : List Change) (endpoint : EndpointValue) (at moment : ℕ)
        (endpoint_group : EndpointGroup)
        → 0 < lifetime
        → HasNoMembership lifetime (max at (latest log)) log endpoint
        → latest (log ++ Clear endpoint at ∷ later) ≤ moment
        → membership_at lifetime moment (reverse (log ++ Clear endpoint at ∷ later)) endpoint_group
        ≡ membership_at lifetime moment (reverse (log ++ Mark at ∷ later)) endpoint_group }
    ensures rows { (lifetime : ℕ) (log later : List Change) (endpoint : EndpointValue) (at moment : ℕ)
        → 0 < lifetime
        → is_live endpoint (memberships_at lifetime (max at (latest log)) log) ≡ false
        → latest (log ++ Clear endpoint at ∷ later) ≤ moment
        → rows_of lifetime moment (log ++ Clear endpoint at ∷ later)
        ≡ rows_of lifetime moment (log ++ Mark at ∷ later) }
{}

/// A report passes no limit exactly where it fits: where it leaves no more than the limits, or no more
/// than there would be without it. So where memberships are within a table's limits, they stay so by
/// reports that fit limits no greater.
pub fn reports_that_fit_pass_no_limit()
    ensures none { (settings : TableSettings) (log : List Change) (endpoint : EndpointValue)
        (records : List Record) (at : ℕ)
        → (limit_passed settings log endpoint records at ≡ None)
        ↔ ReportFits settings log endpoint records at }
    ensures within { (settings : TableSettings) (limits : Limits) (log : List Change)
        (endpoint : EndpointValue) (records : List Record) (at : ℕ)
        → AreAtMost settings.limits limits
        → IsWithin settings.limits (memberships_without settings log at)
        → ReportFits (record settings { limits = limits }) log endpoint records at
        → IsWithin settings.limits (memberships_with settings log endpoint records at) }
{}
