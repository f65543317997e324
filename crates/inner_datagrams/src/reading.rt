//! An inner datagram of either version is read here.

ghost use Rattle.std.specs.Prelude.{◌≡◌, ◌≤◌, ℕ, List, length, IfOk, IsOkAnd, MatchResult, None, Some};
ghost use Rattle.amt_values.specs.{declared.address.Ip.{Ip as IpValue}, Conditions.{unless}};
ghost use Rattle.inner_datagrams.specs.{Fault.{first_inner_fault}, Inner.{IsInner}, Reading.{HasParts, inner_at, payload_in, payload_of, payload_start}, Written.{IsWrittenInner, written_headers}};

use crate::inner::{Inner, InnerFault};
use crate::reading4::read_inner4;
use crate::reading6::read_inner6;
use crate::writing::PAYLOAD_LIMIT;
use amt_values::INPUT_LIMIT;

// The datagram of either version, or its first fault.
#[tactic(auto, unfolding(crate::specs::Fault::first_inner_fault))]
fn read(bytes: &[u8]) -> Result<Inner, InnerFault>
    requires { length bytes.now ≤ INPUT_LIMIT }
    ensures { result ≡ unless (first_inner_fault bytes.now) (inner_at bytes.now) }
{
    let Some(first) = bytes.first() else {
        return Err(InnerFault::ShortHeader(20, 0));
    };
    match *first >> 4 {
        4 => read_inner4(bytes),
        6 => read_inner6(bytes),
        version => Err(InnerFault::Version(version)),
    }
}

/// Reads a whole datagram that carries membership messages, in place: IGMP over IPv4, or ICMPv6
/// over IPv6, there after at most one hop-by-hop header.
///
/// The type of service or traffic class, the identification, the flags but "more fragments", the
/// flow label, the time to live or hop limit, the addresses and the options may be any. The faults
/// are tried in the order of `InnerFault`.
#[tactic(auto, using(crate::proofs::Readings::answers))]
pub fn read_inner(bytes: &[u8]) -> Result<Inner, InnerFault>
    requires { length bytes.now ≤ INPUT_LIMIT }
    ensures found { IfOk result (λ inner.
        IsInner inner.source inner.destination (payload_of inner.start inner.end bytes.now) bytes.now) }
    ensures only { (source destination : IpValue) (payload : List ℕ)
        → IsInner source destination payload bytes.now
        → IsOkAnd result (HasParts source destination payload bytes.now) }

    ensures start { IfOk result (λ inner. inner.start ≡ payload_start bytes.now) }
    ensures end { IfOk result (λ inner. inner.end ≡ length bytes.now) }
    ensures bounds { IfOk result (λ inner. inner.start ≤ inner.end) }
    ensures payload { IfOk result (λ inner.
        payload_of inner.start inner.end bytes.now ≡ payload_in bytes.now) }

    ensures refused { MatchResult result (λ _. first_inner_fault bytes.now ≡ None)
        (λ fault. first_inner_fault bytes.now ≡ Some fault) }
    ensures value { result ≡ unless (first_inner_fault bytes.now) (inner_at bytes.now) }

    ensures read_back { (source destination : IpValue) (payload : List ℕ)
        → length payload ≤ PAYLOAD_LIMIT
        → IsWrittenInner source destination payload bytes.now
        → IsOkAnd result (λ inner. HasParts source destination payload bytes.now inner
        × (inner.start ≡ written_headers source)) }
{
    read(bytes)
}
