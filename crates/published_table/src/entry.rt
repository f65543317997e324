//! An entry on its way into both copies, and what the copies have in common.

use crate::history::Bookmark;
use crate::terms::Terms;
use endpoint_membership::Change;

/// An entry of the log, and how far the history has come that has it.
#[derive(Drop)]
pub struct Entry {
    pub change: Change,
    pub bookmark: Bookmark,
}

/// What contracts know of a copy: its log, the history that has it, and by what it is read. No value of
/// it is made.
pub struct CopyState {
    pub log: [Change; 0],
    pub bookmark: Bookmark,
    pub terms: Terms,
}
