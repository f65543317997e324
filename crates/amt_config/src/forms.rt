//! The forms of texts that keys want, each with the values that its texts name. It knows no key.

ghost use Rattle.std.specs.Prelude.{◌≡◌, ℕ, List, IfOk, IfErr, OnOk, Some};
ghost use Rattle.amt_values.specs.{declared.address.Ip.TheVariants.{V4, V6}, Text.{IsIpText, IsPeerText}};
ghost use Rattle.script_lines.specs.Form.{Form, IsAddressText, IsFamilyText, IsGroupText, IsModeText, a_family, a_group, a_mode, a_peer, an_address, an_address4, an_address6, an_address_of};
ghost use Rattle.amt_config.specs.Key.{IsUnfit, fault_of, reason_of};

use crate::fault::KeyFault;
use amt_values::{Ip, Peer, parse_ip, parse_peer};
use group_records::Family;
use script_lines::{
    read_address, read_address4, read_address6, read_family, read_group, read_mode,
};
use source_filter::Mode;

/// A form of texts, each of which names one value.
pub trait TextForm {
    /// What a text names.
    type Value: Copy;

    ghost form: { Self → Form };

    /// The text names the value.
    ghost Names: { Self → Self.Value → List ℕ → Type 0 };

    /// The value of a text, or what a text of no value is told as.
    fn read(&self, text: &[u8]) -> Result<Self::Value, KeyFault>
        ensures found { IfOk result (λ value. Names self.now value text.now) }
        ensures fits { OnOk result (IsUnfit (form self.now) text.now → ⊥) }
        ensures unfit { IfErr result (λ fault. IsUnfit (form self.now) text.now × (fault ≡ fault_of (reason_of (form self.now)))) };
}

/// An address of either family.
#[derive(Clone, Copy)]
pub struct Address;

impl TextForm for Address {
    type Value = Ip;

    ghost form = { λ self. an_address };

    ghost Names = { λ self ip text. IsIpText ip text };

    fn read(&self, text: &[u8]) -> Result<Ip, KeyFault> {
        parse_ip(text).ok_or(KeyFault::Address)
    }
}

/// An IPv4 address.
#[derive(Clone, Copy)]
pub struct Address4;

impl TextForm for Address4 {
    type Value = u32;

    ghost form = { λ self. an_address4 };

    ghost Names = { λ self number text. IsIpText (V4 number) text };

    fn read(&self, text: &[u8]) -> Result<u32, KeyFault> {
        read_address4(text).ok_or(KeyFault::Address)
    }
}

/// An IPv6 address.
#[derive(Clone, Copy)]
pub struct Address6;

impl TextForm for Address6 {
    type Value = u128;

    ghost form = { λ self. an_address6 };

    ghost Names = { λ self number text. IsIpText (V6 number) text };

    fn read(&self, text: &[u8]) -> Result<u128, KeyFault> {
        read_address6(text).ok_or(KeyFault::Address)
    }
}

/// An address of the family.
#[derive(Clone, Copy)]
pub struct AddressOf(pub Family);

impl TextForm for AddressOf {
    type Value = Ip;

    ghost form = { λ self. an_address_of (Some self.0) };

    ghost Names = { λ self ip text. IsAddressText (Some self.0) ip text };

    fn read(&self, text: &[u8]) -> Result<Ip, KeyFault> {
        read_address(Some(self.0), text).ok_or(KeyFault::Address)
    }
}

/// A group of the family.
#[derive(Clone, Copy)]
pub struct GroupOf(pub Family);

impl TextForm for GroupOf {
    type Value = Ip;

    ghost form = { λ self. a_group (Some self.0) };

    ghost Names = { λ self group text. IsGroupText (Some self.0) group text };

    fn read(&self, text: &[u8]) -> Result<Ip, KeyFault> {
        read_group(Some(self.0), text).ok_or(KeyFault::Address)
    }
}

/// An address and a port.
#[derive(Clone, Copy)]
pub struct Place;

impl TextForm for Place {
    type Value = Peer;

    ghost form = { λ self. a_peer };

    ghost Names = { λ self peer text. IsPeerText peer text };

    fn read(&self, text: &[u8]) -> Result<Peer, KeyFault> {
        match parse_peer(text) {
            Some(peer) => Ok(peer),
            None => Err(KeyFault::Address),
        }
    }
}

/// The word of an address family.
#[derive(Clone, Copy)]
pub struct FamilyWord;

impl TextForm for FamilyWord {
    type Value = Family;

    ghost form = { λ self. a_family };

    ghost Names = { λ self family text. IsFamilyText family text };

    fn read(&self, text: &[u8]) -> Result<Family, KeyFault> {
        read_family(text).ok_or(KeyFault::Range)
    }
}

/// The word of a filter mode.
#[derive(Clone, Copy)]
pub struct ModeWord;

impl TextForm for ModeWord {
    type Value = Mode;

    ghost form = { λ self. a_mode };

    ghost Names = { λ self mode text. IsModeText mode text };

    fn read(&self, text: &[u8]) -> Result<Mode, KeyFault> {
        read_mode(text).ok_or(KeyFault::Range)
    }
}
