//! The rule that holds of the published table and of what its holders know, whoever steps.

use crate::table_copy::TableCopy;
use atomic_table::{Join, Split};
use crossbeam_utils::rule::{Outcome, Protocol};
use endpoint_membership::Change;

/// What one holder knows: the log that it has seen, and the copies that it knows the origin of. It has
/// no bytes.
pub struct Known {
    pub seen: [Change; 0],
    pub copies: [TableCopy; 0],
}

/// Every log that was seen is a prefix of the published one.
pub struct Prefixes;

impl Protocol<TableCopy, Known> for Prefixes {
    ghost use Rattle.published_table.specs.Rule.{TableRule, newcomer};

    ghost holds = { λ copy holders. TableRule copy holders };

    ghost first = { newcomer };
}

/// A reading, or a publishing: the holder sees the copy that is published afterwards.
pub struct Sees;

impl Outcome<TableCopy, Known> for Sees {
    ghost use Rattle.published_table.specs.Rule.{HasSeen};

    ghost then = { λ before old copy after. HasSeen before copy after };
}

/// A new view takes over where the publisher's copies come from.
pub struct Greets;

impl Split<Known> for Greets {
    ghost left = { λ known. known };

    ghost right = { λ known. known };
}

impl Join<Known> for Greets {
    ghost use Rattle.published_table.specs.Rule.{greeted, newcomer};

    ghost both = { greeted };

    ghost spent = { newcomer };
}
