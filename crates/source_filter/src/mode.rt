//! The filter modes.

/// Whether the sources of a list are the wanted ones or the unwanted ones (RFC 3376, section 3.1).
#[derive(Clone, Copy, Debug, PartialEq, Eq)]
pub enum Mode {
    /// The listed sources are wanted, and no others.
    Include,
    /// All sources are wanted but the listed ones.
    Exclude,
}
