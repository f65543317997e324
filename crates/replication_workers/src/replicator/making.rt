//! How a replicator is made and taken apart.
ghost use Rattle.std.specs.Prelude.{◌≡◌, ◌≤◌, ◌+◌, vec_capacity, IfOk, IfErr};
ghost use Rattle.published_table.specs.Views.{terms_of};
ghost use Rattle.replication_workers.specs.Replicators.{limit_of, out_of, view_of};

use super::{NewFault, Replicator};
use amt_ports::OutLink;
use endpoint_membership::Targets;
use published_table::View;
use std::alloc::{AllocError, Global};

fn room_for(
    alloc: Global,
    endpoints: u32,
    packet_limit: u32,
) -> Result<(Targets, Vec<u8>), AllocError>
    requires { packet_limit ≤ 65000 }
    ensures targets { IfOk result (λ made. made.0.room ≡ endpoints) }
    ensures message { IfOk result (λ made. packet_limit + 2 ≤ vec_capacity made.1) }
{
    let targets = Targets::new(alloc, endpoints)?;
    let message = Vec::with_capacity(alloc, packet_limit as usize + 2)?;
    Ok((targets, message))
}

impl<O: OutLink> Replicator<O> {
    /// A replicator by this view, for packets of at most so many octets and as many endpoints as the
    /// view's limits allow.
    pub fn new(
        alloc: Global,
        view: View,
        out: O,
        endpoints: u32,
        packet_limit: u32,
    ) -> Result<Replicator<O>, NewFault<O>>
        requires endpoints { (terms_of view).limits.endpoints ≤ endpoints }
        requires few { endpoints ≤ 65536 }
        requires limit { packet_limit ≤ 65000 }
        ensures made { IfOk result (λ made. (view_of made ≡ view) × (out_of made ≡ out)
            × (limit_of made ≡ packet_limit)) }
        ensures back { IfErr result (λ fault. (fault.view ≡ view) × (fault.out ≡ out)) }
    {
        let Ok((targets, message)) = room_for(alloc, endpoints, packet_limit) else {
            return Err(NewFault { view, out });
        };
        Ok(Replicator {
            view,
            out,
            targets,
            message,
            packet_limit,
        })
    }

    /// The view by which it finds who wants a packet.
    pub fn view(&self) -> &View
        ensures { result.now ≡ view_of self.now }
    {
        &self.view
    }

    /// Its view and its link, once nothing more is to be sent.
    pub fn into_parts(self) -> (View, O)
        ensures view { result.0 ≡ view_of self }
        ensures out { result.1 ≡ out_of self }
    {
        let Replicator {
            view,
            out,
            targets: _targets,
            message: _message,
            packet_limit: _,
        } = self;
        (view, out)
    }
}
