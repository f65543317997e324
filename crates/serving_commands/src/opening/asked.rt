//! The openings that were asked for.
ghost use Rattle.std.specs.Prelude.{◌≡◌, [], IsSome, None, OnErr, OnOk, Some};
ghost use Rattle.amt_ports.specs.Told.{Appends};

use amt_values::Peer;
use std::alloc::{AllocError, Global};
use std::marker::Model;

/// Who asks a running relay.
#[derive(Clone, Copy, Debug, PartialEq, Eq)]
pub struct AskedBy {
    /// Where a control socket takes lines, if one is wanted.
    pub control: Option<Peer>,
    /// The least seconds from one line of counts on standard error to the next, for which it asks itself; 0
    /// where it doesn't.
    pub report_seconds: u32,
}

impl AskedBy {
    ghost use Rattle.std.specs.Prelude.{◌≡◌};
    ghost use Rattle.serving_commands.specs.Seen.{is_asked};

    /// Whether anybody does.
    pub fn is_wanted(&self) -> bool
        ensures { result ≡ is_asked self.now }
    {
        self.control.is_some() || self.report_seconds > 0
    }
}

/// An opening, with what was asked of it.
#[derive(Clone, Copy, Debug, PartialEq, Eq)]
pub enum Opening {
    /// The devices of a relay.
    Relay {
        /// Where the link listens for datagrams.
        listen: Peer,
        /// Where the feed takes packets.
        feed: Peer,
        /// Who asks it.
        asking: AskedBy,
        /// So many links out.
        slots: u32,
    },
    /// The devices of a gateway.
    Gateway {
        /// Where the link listens for datagrams.
        listen: Peer,
        /// Where its control socket takes lines.
        control: Peer,
        /// The seconds from one line of counts to the next; 0 where there is none.
        report_seconds: u32,
    },
}

/// The openings that were asked for, in order. Contracts see them while none is missing.
#[derive(Debug, Drop)]
pub(crate) struct AskedLog {
    openings: Vec<Opening>,
    is_whole: bool,
}

impl Model for AskedLog {
    ghost use Rattle.std.specs.Prelude.{List, Option};
    ghost use Rattle.serving_commands.specs.{MemLive.{told_openings}, declared.opening.asked.Opening.{Opening as Asked}};

    ghost Value = { Option (List Asked) };

    ghost view = { λ log. told_openings log.is_whole log.openings.items };
}

impl AskedLog {
    pub(crate) fn new(alloc: Global) -> Self
        ensures { result ≡ Some [] }
    {
        AskedLog {
            openings: Vec::new(alloc),
            is_whole: true,
        }
    }

    pub(crate) fn as_slice(&self) -> &[Opening]
        ensures { IsSome self.now → self.now ≡ Some result.now }
    {
        self.openings.as_slice()
    }

    /// Keeps an opening. Where memory refuses that, the openings aren't told from then on.
    pub(crate) fn keep(&mut self, opening: Opening) -> Result<(), AllocError>
        ensures ok { Appends self.old self.new opening }
        ensures tells { OnOk result (IsSome self.old → IsSome self.new) }
        ensures err { OnErr result (self.new ≡ None) }
    {
        if self.openings.push(opening).is_err() {
            self.is_whole = false;
            return Err(AllocError);
        }
        Ok(())
    }
}
