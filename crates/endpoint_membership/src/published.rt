//! What replicas are given of the accepted log, and why it is enough for them.
ghost use Rattle.std.specs.Prelude.{ℕ, ◌≡◌, ◌≤◌, ◌<◌, false, List, [], ◌∷◌, ◌++◌, take};
ghost use Rattle.amt_values.specs.EndpointValue.{EndpointValue};
ghost use Rattle.endpoint_membership.specs.{Log.{latest}, Memberships.{is_live, memberships_at}, Published.{AnswerAlike, ClearingsLetNoTimePass, IsPublishedPart, clears_nothing, published_of, with_published}, declared.change.Change.{Change, TheVariants.{Clear}}};

/// A clearing of an endpoint without a membership may be left out of a log, whatever is accepted later:
/// nothing is told otherwise for it, at its moment or after it. Its moment isn't later than the log
/// before it; one that is may be left out for a mark, as in
/// `clearings_change_nothing_where_none_is_live`.
pub fn clearings_of_none_may_be_left_out()
    ensures { (lifetime : ℕ) (log later : List Change) (endpoint : EndpointValue) (at : ℕ)
        → 0 < lifetime → at ≤ latest log
        → is_live endpoint (memberships_at lifetime (latest log) log) ≡ false
        → AnswerAlike lifetime (log ++ later) (log ++ Clear endpoint at ∷ later) }
{}

/// The published log grows as the accepted one does: by the same entry, or, where that clears nothing,
/// by none.
pub fn published_logs_grow_with_accepted_ones()
    ensures none { (lifetime : ℕ) → published_of lifetime [] ≡ [] }
    ensures next { (lifetime : ℕ) (log : List Change) (entry : Change)
        → published_of lifetime (log ++ entry ∷ [])
        ≡ with_published (clears_nothing lifetime log entry) (published_of lifetime log) entry }
{}

/// Whoever has a prefix of the published log has the published log of a prefix of the accepted one, and
/// knows what that tells; whoever has all of it knows what all of that tells.
pub fn published_logs_tell_what_accepted_ones_do()
    ensures whole { (lifetime : ℕ) (log : List Change)
        → 0 < lifetime → ClearingsLetNoTimePass log
        → AnswerAlike lifetime (published_of lifetime log) log }
    ensures prefixes { (lifetime : ℕ) (log : List Change) (number : ℕ)
        → 0 < lifetime → ClearingsLetNoTimePass log
        → IsPublishedPart lifetime (take number (published_of lifetime log)) log }
{}
