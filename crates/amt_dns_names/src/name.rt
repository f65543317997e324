//! DNS names.

ghost use Rattle.std.specs.Prelude.{◌≡◌, ℕ, ◌+◌, ◌≤◌, List, [], ◌∷◌, ◌++◌, length, IfOk, OnOk, OnErr, IsTrue, IsFalse, ◌<◌};
ghost use Rattle.amt_dns_names.specs.{Name.{IsLabel, IsName, label_wire, name_wire}, NameAt.{NameAt}};

use amt_values::{Bytes, Items};
use std::alloc::{AllocError, Global};
use std::marker::Model;

// The most octets of a name (RFC 1035, section 2.3.4).
const NAME_LIMIT: usize = 255;

/// A DNS name: labels of 1 to 63 octets, at most 255 octets in all with the length octets and the
/// zero octet (RFC 1035, sections 2.3.4 and 3.1).
#[derive(Debug, Drop)]
pub struct Name {
    labels: Items<Bytes>,
    // How many octets `wire` gives.
    octets: usize,
}

impl Model for Name {
    ghost use Rattle.std.specs.Prelude.{◌≡◌, ℕ, List, length};
    ghost use Rattle.amt_dns_names.specs.Name.{IsName, name_wire};

    ghost Value = { List (List ℕ) };

    ghost view = { λ name. name.labels };

    ghost invariant = { λ name. IsName name.labels
        × (name.octets ≡ length (name_wire name.labels)) };

    ghost inverse = { λ labels. record { labels = labels; octets = length (name_wire labels) } };
}

// Puts a label behind its length octet at the end.
fn append_label(wire: &mut Bytes, label: &[u8]) -> Result<(), AllocError>
    requires { length label.now ≤ 63 }
    ensures { OnOk result (wire.new ≡ wire.old ++ label_wire label.now) }
{
    wire.push(label.len() as u8)?;
    wire.append(label)
}

impl Name {
    // The name of the root, which has no label.
    pub(crate) fn root(alloc: Global) -> Name
        ensures { result ≡ [] }
    {
        Name {
            labels: Items::new(alloc),
            octets: 1,
        }
    }

    /// The labels, the first one first.
    pub fn labels(&self) -> &[Bytes]
        ensures labels { result.now ≡ self.now }
        ensures lawful { IsName self.now }
    {
        self.labels.as_slice()
    }

    // Whether a label of so many octets still fits.
    pub(crate) fn has_room(&self, count: usize) -> bool
        requires { count ≤ 63 }
        ensures fits { IsTrue result → length (name_wire self.now) + 1 + count ≤ 255 }
        ensures long { IsFalse result → 255 < length (name_wire self.now) + 1 + count }
    {
        self.octets + 1 + count <= NAME_LIMIT
    }

    // Puts a label at the end.
    pub(crate) fn push(&mut self, alloc: Global, label: &[u8]) -> Result<(), AllocError>
        requires lawful { IsLabel label.now }
        requires fits { length (name_wire self.old) + 1 + length label.now ≤ 255 }
        ensures ok { OnOk result (self.new ≡ self.old ++ label.now ∷ []) }
        ensures err { OnErr result (self.new ≡ self.old) }
        ensures octets { OnOk result (length (name_wire self.new)
            ≡ length (name_wire self.old) + 1 + length label.now) }
    {
        self.labels.push(Bytes::copied(alloc, label)?)?;
        self.octets += 1 + label.len();
        Ok(())
    }

    /// Each label behind its length octet, and the zero octet: at most 255 octets.
    pub fn wire(&self, alloc: Global) -> Result<Bytes, AllocError>
        ensures octets { IfOk result (λ wire. wire ≡ name_wire self.now) }
        ensures most { IfOk result (λ wire. length wire ≤ 255) }
        ensures stands { IfOk result (λ wire. (before after : List ℕ)
            → NameAt (before ++ wire ++ after) (length before) self.now
            (length before + length wire)) }
    {
        let mut wire = Bytes::with_room(alloc, self.octets)?;
        for label in self.labels.as_slice() {
            append_label(&mut wire, label.as_slice())?;
        }
        wire.push(0)?;
        Ok(wire)
    }
}
