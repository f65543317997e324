//! A membership table that one publisher changes and several views read, each whenever it likes.
//!
//! Contract: what a view answers is what a prefix of the published log tells, which begins with all
//! that the view saw before and with each log that it was told of.
//! It knows no message, packet or socket. A view waits for nobody, and its readings take no memory.
//! Standard: RFC 7450, section 5.3.
#![tactic(auto)]

mod door;
mod entry;
mod history;
mod past;
mod publisher;
mod rule;
mod table_copy;
mod terms;
mod told;
mod view;

pub use door::{Counted, Door, Inside};
pub use publisher::Publisher;
pub use terms::Terms;
pub use view::{Note, View, Views};
