//! What every tunnel endpoint wants: the membership table of a relay.
//!
//! Contract: a table represents the whole log of accepted entries, so its memberships are what the
//! log's live records want, whatever calls made them.
//! It knows no message, socket or clock.
//! Standard: RFC 7450, section 5.3; RFC 3376, sections 3.2, 4.2.12 and 8.4.
#![tactic(auto)]

mod after_report;
mod change;
mod effective;
mod filters;
mod filters_after;
mod first_limit;
mod keys;
mod laws;
mod limits;
mod membership_change;
mod parts;
mod published;
mod row;
mod stored;
mod table;
mod targets;

pub use change::Change;
pub use laws::{
    clearings_change_nothing_where_none_is_live, live_chains_are_longest,
    reports_that_fit_pass_no_limit, rows_admit_by_the_newest_record, targets_are_those_that_want,
};
pub use limits::{AcceptFault, LimitFault, Limits};
pub use membership_change::{MembershipChange, MembershipChanges};
pub use published::{
    clearings_of_none_may_be_left_out, published_logs_grow_with_accepted_ones,
    published_logs_tell_what_accepted_ones_do,
};
pub use row::{Row, Rows};
pub use table::Table;
pub use targets::Targets;
