//! What the definitions of a relay mean in the words of the standards.
ghost use Rattle.std.specs.Prelude.{ℕ, ◌≡◌, ◌↔◌, Bool, true, List, slice_index, Ok};
ghost use Rattle.amt_messages.specs.Layout.{spelling_of};
ghost use Rattle.amt_values.specs.{EndpointValue.{EndpointValue}, Octets.{AreOctets}};
ghost use Rattle.response_mac.specs.declared.secret.Secret.{Secret};
ghost use Rattle.source_filter.specs.declared.record.Record.{Record};
ghost use Rattle.relay_machine.specs.{declared.settings.Settings.{Settings}, Lawful.{IsLawful}, Queries.{query_for}, Updates.{report_in}};

/// What the inner octets of an Update are read as is the report that they are by the standards (RFC
/// 7450, section 5.1.5; RFC 3376, section 4.2; RFC 3810, section 5.2): an Update is unlawful exactly
/// where no records make a lawful report of its octets.
pub fn lawful_reports_are_those_that_are_read()
    ensures { (inner : List ℕ) (records : List Record) → AreOctets inner
        → (report_in inner ≡ Ok records) ↔ IsLawful inner records }
{}

/// Where Linux's gateways are served no Query has a flag: its second octet is 0, which is what their driver takes
/// (RFC 7450, section 5.1.4).
pub fn queries_for_linux_have_no_flag()
    ensures { (settings : Settings) (secret : Secret) (v6 limited : Bool) (source : EndpointValue)
        (nonce : ℕ) → settings.linux_gateways ≡ true
        → slice_index (spelling_of (query_for settings secret v6 limited source nonce)) 1 ≡ 0 }
{}
