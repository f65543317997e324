//! The texts of what is wrong with an Update, a packet or a limit. It knows no script.
//!
//! They are printed by `write!`, which is shorter. What a step, a send or a row prints each time, numbers
//! and addresses, goes by `append_numeral`, `append_peer` and `append_ip`, which are faster.

ghost use Rattle.std.specs.Prelude.{◌≡◌, ◌++◌, OnOk};
ghost use Rattle.amt_script.specs.Texts.{limit_text, not_forwarded_text, unlawful_text};

use amt_values::Bytes;
use endpoint_membership::LimitFault;
use relay_machine::{NotForwarded, Unlawful};
use script_lines::{append_head_fault, append_inner_fault, append_report_fault};
use std::alloc::AllocError;

/// Puts at the end why an Update has no lawful report.
pub fn append_unlawful(text: &mut Bytes, fault: &Unlawful) -> Result<(), AllocError>
    ensures { OnOk result (text.new ≡ text.old ++ unlawful_text fault.now) }
{
    match *fault {
        Unlawful::Inner(fault) => {
            text.append(b"inner ")?;
            append_inner_fault(text, &fault)
        }
        Unlawful::Report(fault) => {
            text.append(b"report ")?;
            append_report_fault(text, &fault)
        }
    }
}

/// Which limit was passed, and the number that passes it.
pub fn append_limit(text: &mut Bytes, fault: &LimitFault) -> Result<(), AllocError>
    ensures { OnOk result (text.new ≡ text.old ++ limit_text fault.now) }
{
    match *fault {
        LimitFault::Sources(group, count) => write!(text, "sources {group} {count}"),
        LimitFault::Groups(count) => write!(text, "groups {count}"),
        LimitFault::Endpoints(count) => write!(text, "endpoints {count}"),
    }
}

/// Why a packet was not copied to anyone.
pub fn append_not_forwarded(text: &mut Bytes, cause: &NotForwarded) -> Result<(), AllocError>
    ensures { OnOk result (text.new ≡ text.old ++ not_forwarded_text cause.now) }
{
    match *cause {
        NotForwarded::Head(fault) => {
            text.append(b"head ")?;
            append_head_fault(text, &fault)
        }
        NotForwarded::Scope(group) => write!(text, "scope {group}"),
    }
}
