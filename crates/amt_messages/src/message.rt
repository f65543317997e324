//! The messages as values.

use amt_values::{Bytes, Endpoint, Ip, Mac48};

/// A message of the tunneling protocol (RFC 7450, section 5.1).
///
/// Each begins with the version, 0, and its type, of four bits each. In the drawings a row has 32 bits,
/// numbers are in network order, and reserved bits are written as zero and ignored when they are read.
#[derive(Debug, Drop)]
pub enum Message {
    /// A gateway looks for a relay (section 5.1.1).
    ///
    /// ```text
    ///  0               8               16              24            31
    /// +-------+-------+-----------------------------------------------+
    /// |   0   |   1   |                   reserved                    |
    /// +-------+-------+-----------------------------------------------+
    /// |                             nonce                             |
    /// +---------------------------------------------------------------+
    /// ```
    Discovery {
        nonce: u32,
    },
    /// A relay answers with its address and the nonce of the Discovery (section 5.1.2).
    ///
    /// ```text
    ///  0               8               16              24            31
    /// +-------+-------+-----------------------------------------------+
    /// |   0   |   2   |                   reserved                    |
    /// +-------+-------+-----------------------------------------------+
    /// |                             nonce                             |
    /// +---------------------------------------------------------------+
    /// :          relay address, 4 octets of IPv4 or 16 of IPv6        :
    /// +---------------------------------------------------------------+
    /// ```
    Advertisement {
        nonce: u32,
        relay: Ip,
    },
    /// A gateway asks for a General Query, of MLDv2 where `v6` is true and else of IGMPv3
    /// (section 5.1.3).
    ///
    /// ```text
    ///  0               8             15 16                           31
    /// +-------+-------+-------------+-+-------------------------------+
    /// |   0   |   3   |  reserved   |P|           reserved            |
    /// +-------+-------+-------------+-+-------------------------------+
    /// |                             nonce                             |
    /// +---------------------------------------------------------------+
    /// ```
    ///
    /// P is `v6`.
    Request {
        v6: bool,
        nonce: u32,
    },
    /// A relay hands out a response MAC and a General Query (section 5.1.4).
    ///
    /// ```text
    ///  0               8         13 14 15 16                         31
    /// +-------+-------+-----------+-+-+-------------------------------+
    /// |   0   |   4   | reserved  |L|G|                               |
    /// +-------+-------+-----------+-+-+         response MAC          +
    /// |                                                               |
    /// +---------------------------------------------------------------+
    /// |                             nonce                             |
    /// +---------------------------------------------------------------+
    /// :       inner datagram, as long as its own header states        :
    /// +-------------------------------+-------------------------------+
    /// |  gateway port, where G is 1   |                               |
    /// +-------------------------------+                               +
    /// :               gateway address, 16 octets, where G is 1        :
    /// +---------------------------------------------------------------+
    /// ```
    ///
    /// L is `limited`, and G says that `seen` is there.
    Query {
        /// The relay takes no updates from new tunnel endpoints.
        limited: bool,
        mac: Mac48,
        nonce: u32,
        /// The IP datagram that carries the General Query.
        inner: Bytes,
        /// The gateway's address and port as the relay sees them.
        seen: Option<Endpoint>,
    },
    /// A gateway reports its memberships, by the response MAC and the nonce of a Query
    /// (section 5.1.5).
    ///
    /// ```text
    ///  0               8               16                            31
    /// +-------+-------+---------------+-------------------------------+
    /// |   0   |   5   |   reserved    |                               |
    /// +-------+-------+---------------+         response MAC          +
    /// |                                                               |
    /// +---------------------------------------------------------------+
    /// |                             nonce                             |
    /// +---------------------------------------------------------------+
    /// :                   inner datagram, all the rest                :
    /// +---------------------------------------------------------------+
    /// ```
    Update {
        mac: Mac48,
        nonce: u32,
        /// The IP datagram that carries the membership report; a codec takes any octets for it.
        inner: Bytes,
    },
    /// A relay forwards a packet of a group (section 5.1.6).
    ///
    /// ```text
    ///  0               8               16
    /// +-------+-------+---------------+-------------------------------+
    /// |   0   |   6   |   reserved    |      IP packet, all the rest  :
    /// +-------+-------+---------------+-------------------------------+
    /// ```
    Multicast {
        /// The whole IP packet; a codec takes any octets for it, and none.
        packet: Bytes,
    },
    /// A gateway ends the tunnel of an earlier endpoint of its own (section 5.1.7).
    ///
    /// ```text
    ///  0               8               16                            31
    /// +-------+-------+---------------+-------------------------------+
    /// |   0   |   7   |   reserved    |                               |
    /// +-------+-------+---------------+         response MAC          +
    /// |                                                               |
    /// +---------------------------------------------------------------+
    /// |                             nonce                             |
    /// +-------------------------------+-------------------------------+
    /// |         gateway port          |                               |
    /// +-------------------------------+                               +
    /// :                  gateway address, 16 octets                   :
    /// +---------------------------------------------------------------+
    /// ```
    Teardown {
        /// The response MAC that the relay gave for that endpoint.
        mac: Mac48,
        /// The nonce that the MAC was given with.
        nonce: u32,
        /// The endpoint whose tunnel ends, as a Query named it.
        gateway: Endpoint,
    },
}
