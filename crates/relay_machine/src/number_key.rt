//! The settings that are one number each: their table. It doesn't know where settings keep them.
ghost use Rattle.std.specs.Prelude.{◌≡◌, ◌↔◌, IsTrue};
ghost use Rattle.relay_machine.specs.Settings.{IsInKeyRange, number_row};

/// A setting that is one number.
#[derive(Clone, Copy, Debug, PartialEq, Eq)]
pub enum NumberKey {
    Robustness,
    QuerySeconds,
    ResponseTenths,
    Secrets,
    Endpoints,
    Groups,
    Sources,
    PacketLimit,
}

/// All keys, in the order of [`NumberKey`].
pub const NUMBER_KEYS: [NumberKey; 8] = [
    NumberKey::Robustness,
    NumberKey::QuerySeconds,
    NumberKey::ResponseTenths,
    NumberKey::Secrets,
    NumberKey::Endpoints,
    NumberKey::Groups,
    NumberKey::Sources,
    NumberKey::PacketLimit,
];

/// The numbers that a key may have, from the least to the most, and the one that it has by default.
#[derive(Clone, Copy, Debug, PartialEq, Eq)]
pub struct NumberRange {
    pub least: u32,
    pub most: u32,
    pub default: u32,
}

impl NumberKey {
    /// The row of the table.
    pub fn range(self) -> NumberRange
        ensures least { result.least ≡ (number_row self).least }
        ensures most { result.most ≡ (number_row self).most }
        ensures default { result.default ≡ (number_row self).default }
    {
        let (least, most, default) = match self {
            NumberKey::Robustness => (1, 7, 2),
            NumberKey::QuerySeconds => (1, 31_744, 125),
            NumberKey::ResponseTenths => (1, 31_744, 100),
            NumberKey::Secrets => (1, 4, 2),
            NumberKey::Endpoints => (1, 65_536, 1024),
            NumberKey::Groups => (1, 256, 64),
            NumberKey::Sources => (1, 64, 64),
            NumberKey::PacketLimit => (20, 65_000, 1450),
        };
        NumberRange {
            least,
            most,
            default,
        }
    }

    /// Whether a number is in the key's range.
    pub fn allows(self, number: u32) -> bool
        ensures { IsTrue result ↔ IsInKeyRange self number }
    {
        let range = self.range();
        range.least <= number && number <= range.most
    }
}
