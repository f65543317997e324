//! What the change records between sockets are after calls.
ghost use Rattle.std.specs.Prelude.{◌≡◌, List, ◌++◌};
ghost use Rattle.group_records.specs.declared.family.Family.{Family};
ghost use Rattle.socket_merge.specs.{Changes.{change_records, changes_between}, History.{AcceptedCall, open_sockets}};

/// From the sockets of a history to those after more calls, the change records are those of what the
/// calls changed. A history stands newest call first.
pub fn changes_are_those_of_calls()
    ensures { (family : Family) (history newer : List AcceptedCall)
        → changes_between family (open_sockets history) (open_sockets (newer ++ history))
        ≡ change_records family history (newer ++ history) }
{}
