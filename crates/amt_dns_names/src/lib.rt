//! DNS names, the name under which a source's relays are asked for, and the query for them.
//!
//! Contract: a name is read exactly where one stands in the octets of a message.
//! It knows no record, socket or moment.
//! Standard: RFC 1035, sections 2.3.4, 3.1 and 4.1; RFC 8777, sections 2 and 4.1.
#![tactic(auto)]

mod forms;
mod laws;
mod name;
mod query;
mod reading;
mod reverse;

pub use laws::places_have_one_name;
pub use name::Name;
pub use query::write_query;
pub use reading::{ReadName, read_name};
pub use reverse::reverse_name;
