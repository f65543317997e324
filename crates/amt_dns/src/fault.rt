//! Why octets are no answer.

/// The first reason for which octets are no answer to the query. Places are octets of the message, and records are
/// counted, both from 0.
#[derive(Clone, Copy, Debug, PartialEq, Eq)]
pub enum DnsFault {
    /// How many octets a head needs, and how many there are.
    Short(u32, u32),
    /// The query had this id, and the answer has the other one.
    Id(u16, u16),
    /// It is a query.
    NotAnswer,
    /// The answer was cut, as one over UDP may be.
    Truncated,
    /// The server answered with this code, such as 3 where there is no such name (RFC 1035, section 4.1.1).
    Code(u8),
    /// There are this many questions, and not one.
    Questions(u16),
    /// At this place a name has to begin, and none stands there.
    Name(u32),
    /// The question is another one, or isn't whole.
    Question,
    /// Octets of this record are missing after its owner's name.
    Record(u32),
    /// The data of this record are of no form of type AMTRELAY (RFC 8777, section 4.2).
    Data(u32),
    Memory,
}
