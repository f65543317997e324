//! Where a running relay is asked by lines, and what it needs to know for the answers.
ghost use Rattle.std.specs.Prelude.{List, Option};
ghost use Rattle.amt_ports.specs.Told.{Appends};
ghost use Rattle.relay_serving.specs.declared.control.CopyCount.{CopyCount as CountValue};

/// How many copies of packets outs have sent, and how many they didn't take.
#[derive(Clone, Copy, Debug, PartialEq, Eq)]
pub struct CopyCount {
    pub sent: u64,
    pub unsent: u64,
}

/// What counts the copies that the outs of a run have tried so far. Workers send them in threads of their own, so the
/// turns can't count them.
pub trait Copies {
    /// The counts that were given so far, in order, where the device tells them.
    ghost given: { Self → Option (List CountValue) };

    /// The copies so far. A count at 2^64 - 1 stays there.
    fn copies(&mut self) -> CopyCount
        ensures given { Appends (given self.old) (given self.new) result };
}

/// Where lines come from and their answers go to, and what counts the copies.
#[derive(Debug, Drop)]
pub struct Control<K, N> {
    pub link: K,
    pub copies: N,
}
