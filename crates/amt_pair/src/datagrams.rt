//! Datagrams that were sent and may be delivered.

ghost use Rattle.std.specs.Prelude.{◌≡◌, ◌++◌, [], map, IfOk, IsOk, OnOk, OnErr};
ghost use Rattle.amt_pair.specs.Members.{kept_datagram};

use crate::numbered::Numbered;
use amt_values::{Bytes, Peer};
use gateway_machine::PeerSend;
use relay_machine::OneSend;
use std::alloc::{AllocError, Global};

/// A datagram to the relay.
#[derive(Debug, Drop)]
pub struct UpDatagram {
    pub from: Peer,
    pub bytes: Bytes,
}

/// The datagrams to the relay, in the order in which they were sent.
pub type UpDatagrams = Numbered<UpDatagram>;

/// The datagrams of the relay, in the order in which they were sent.
pub type DownDatagrams = Numbered<OneSend>;

/// What a gateway sends, as datagrams of its peer.
pub fn datagrams_from(
    alloc: Global,
    from: &Peer,
    sends: &[PeerSend],
) -> Result<Vec<UpDatagram>, AllocError>
    ensures { IfOk result (λ datagrams. datagrams.items ≡ map (kept_datagram from.now) sends.now) }
{
    let mut datagrams = Vec::with_capacity(alloc, sends.len())?;
    for send in sends {
        let bytes = Bytes::copied(alloc, send.bytes.as_slice())?;
        datagrams.push(UpDatagram { from: *from, bytes })?;
    }
    Ok(datagrams)
}

/// Equal datagrams of the relay.
pub fn copies_of(alloc: Global, sends: &[OneSend]) -> Result<Vec<OneSend>, AllocError>
    ensures { IfOk result (λ copies. copies.items ≡ sends.now) }
{
    let mut copies = Vec::with_capacity(alloc, sends.len())?;
    for send in sends {
        let bytes = Bytes::copied(alloc, send.bytes.as_slice())?;
        copies.push(OneSend { to: send.to, bytes })?;
    }
    Ok(copies)
}

/// Keeps equal datagrams of the relay. Where there are none it takes no memory.
pub fn keep_copies(
    alloc: Global,
    sends: &[OneSend],
    down: &mut DownDatagrams,
) -> Result<(), AllocError>
    ensures kept { OnOk result (down.new ≡ down.old ++ sends.now) }
    ensures same { OnErr result (down.new ≡ down.old) }
    ensures none { sends.now ≡ [] → IsOk result }
{
    if sends.len() == 0 {
        return Ok(());
    }
    let copies = copies_of(alloc, sends)?;
    down.append(copies)
}
