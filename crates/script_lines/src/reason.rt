//! The reasons why lines are bad, and their words.

/// Why a line is no line of a script. Where several hold, the earlier one here is reported.
#[derive(Clone, Copy, Debug, PartialEq, Eq)]
pub enum Reason {
    /// More than 140,000 octets.
    Long,
    /// An octet that isn't printable ASCII, or a first word or a key that is none.
    Word,
    /// A setting after an event.
    Late,
    /// A setting that was given before.
    Twice,
    /// Too few fields, or too many; also a `set` alone.
    Count,
    /// No decimal number without a leading zero, or a moment of 2^62 or more.
    Number,
    /// A secret without its 64 hexadecimal digits, a nonce without its 8, or octets that aren't pairs of
    /// at most 131,070 digits, or a dash.
    Hex,
    /// No text of an address, or one of the other family.
    Address,
    /// No text of a peer.
    Peer,
    /// No name: 1 to 32 small letters, digits and underscores.
    Name,
    /// Neither `include` nor `exclude`.
    Mode,
    /// No text of a group that packets are forwarded to, or one of the other family.
    Group,
    /// A number outside its range; at the end of a script, one without a code.
    Range,
    /// A required setting, at the end of a script.
    Missing,
}

impl Reason {
    ghost use Rattle.std.specs.Prelude.{◌≡◌};
    ghost use Rattle.script_lines.specs.Texts.{reason_word};

    /// The word for the reason.
    pub fn word(self) -> &'static str
        ensures { result.now ≡ reason_word self }
    {
        match self {
            Reason::Long => "long",
            Reason::Word => "word",
            Reason::Late => "late",
            Reason::Twice => "twice",
            Reason::Count => "count",
            Reason::Number => "number",
            Reason::Hex => "hex",
            Reason::Address => "address",
            Reason::Peer => "peer",
            Reason::Name => "name",
            Reason::Mode => "mode",
            Reason::Group => "group",
            Reason::Range => "range",
            Reason::Missing => "missing",
        }
    }
}
