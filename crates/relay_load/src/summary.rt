//! What a run comes to, and its text.

ghost use Rattle.std.specs.Prelude.{◌≡◌, IfOk};
ghost use Rattle.relay_load.specs.Texts.{load_text};

use amt_values::Bytes;
use std::alloc::{AllocError, Global};

/// What a relay's run over a script comes to, in numbers.
#[derive(Clone, Copy, Debug, PartialEq, Eq)]
pub struct LoadSummary {
    /// The events.
    pub events: u64,
    /// The Updates that were accepted.
    pub updated: u64,
    /// The endpoints to which packets went, over all packets. It is so wide that no sum of counts of 32
    /// bits, over as many events as memory holds, is too large for it.
    pub copied: u128,
    /// The endpoints with a membership at the end.
    pub live: u32,
}

impl LoadSummary {
    /// A line for each number.
    #[tactic(auto, unfolding(crate::specs::Texts::load_text))]
    pub fn text(&self, alloc: Global) -> Result<Bytes, AllocError>
        ensures { IfOk result (λ text. text ≡ load_text self.now) }
    {
        let mut text = Bytes::new(alloc);
        write!(text, "events {}\n", self.events)?;
        write!(text, "updated {}\n", self.updated)?;
        write!(text, "copied {}\n", self.copied)?;
        write!(text, "live {}\n", self.live)?;
        Ok(text)
    }
}
