//! A row as it was read. It knows no line.

use amt_values::{Bytes, Items};

/// What a row asks.
#[derive(Debug, Drop)]
pub enum Question {
    /// The HMAC of the message under the key, with SHA-256.
    Hmac { key: Bytes, message: Bytes },
    /// The Internet checksum of these octets.
    Sum(Bytes),
    /// Whether these octets are a message.
    Decode(Bytes),
    /// The time that a code of IGMP stands for.
    Code4(u8),
    /// The time that a code of MLD stands for.
    Code6(u16),
    /// The address that this text names, as it is printed.
    Ip(Bytes),
}

/// A question, and the text of the answer that is wanted.
#[derive(Debug, Drop)]
pub struct Row {
    pub question: Question,
    pub want: Bytes,
}

/// Rows, in order.
pub type Rows = Items<Row>;
