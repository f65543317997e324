//! What the steps of a relay hand out, all together.
ghost use Rattle.std.specs.Prelude.{ℕ, ◌≡◌, List, [], ◌∷◌, ◌++◌, take};
ghost use Rattle.response_mac.specs.declared.secret.Secret.{Secret};
ghost use Rattle.endpoint_membership.specs.{Limits.{IsWithin}, Published.{AnswerAlike, IsPublishedPart}, Table.{memberships_now}};
ghost use Rattle.relay_machine.specs.{Accepted.{accepted_log, change_of, with_change}, Published.{published_log}, Settings.{AreLawfulSettings, membership_interval_ms, table_settings_of}, declared.{event.Event.{Event}, settings.Settings.{Settings}}};

/// The entries that steps hand out are the published log, in order. It tells what the accepted log of the
/// events tells; each prefix of it is the published log of a prefix of that one, and tells what that tells;
/// and its memberships are within the limits whatever comes.
pub fn steps_hand_out_the_published_log()
    ensures none { (settings : Settings) (first : Secret) → published_log settings first [] ≡ [] }
    ensures next { (settings : Settings) (first : Secret) (events : List Event) (event : Event)
        → published_log settings first (events ++ event ∷ [])
        ≡ with_change (published_log settings first events) (change_of settings first events event) }
    ensures whole { (settings : Settings) (first : Secret) (events : List Event)
        → AreLawfulSettings settings
        → AnswerAlike (membership_interval_ms settings) (published_log settings first events)
        (accepted_log settings first events) }
    ensures prefixes { (settings : Settings) (first : Secret) (events : List Event) (number : ℕ)
        → AreLawfulSettings settings
        → IsPublishedPart (membership_interval_ms settings)
        (take number (published_log settings first events)) (accepted_log settings first events) }
    ensures within { (settings : Settings) (first : Secret) (events : List Event)
        → AreLawfulSettings settings
        → IsWithin settings.limits (memberships_now (table_settings_of settings)
        (published_log settings first events)) }
{}
