//! What a run of a serving gateway comes to, in numbers.
ghost use Rattle.std.specs.Prelude.{◌≡◌};
ghost use Rattle.gateway_serving.specs.{Counting.{no_counts}, Reports.{report_of}};

use crate::counts::Counts;
use amt_ports::End;

/// What a run came to, in numbers.
#[derive(Clone, Copy, Debug, PartialEq, Eq)]
pub struct GatewayServed {
    pub end: End,
    /// The turns that were done whole.
    pub turns: u64,
    /// The datagrams that were taken from the link.
    pub datagrams: u64,
    /// The lines that were taken from the control.
    pub controls: u64,
    /// Those of them that make no socket call and ask for nothing.
    pub bad_controls: u64,
    /// The packets that were handed on.
    pub delivered: u64,
    /// The datagrams that the link didn't take, and the packets that the out didn't take.
    pub unsent: u64,
    /// The events and the lines of turns that memory refused, and the answers to lines.
    pub starved: u64,
}

impl GatewayServed {
    /// A run that ended so, after so many whole turns.
    pub(crate) fn of(end: End, turns: u64, counts: &Counts) -> GatewayServed
        ensures { result ≡ report_of end turns counts.now }
    {
        GatewayServed {
            end,
            turns,
            datagrams: counts.datagrams,
            controls: counts.controls,
            bad_controls: counts.bad_controls,
            delivered: counts.delivered,
            unsent: counts.unsent,
            starved: counts.starved,
        }
    }

    /// A run in which nothing happened.
    pub(crate) fn unused(end: End) -> GatewayServed
        ensures { result ≡ report_of end 0 no_counts }
    {
        GatewayServed::of(end, 0, &Counts::new())
    }
}
