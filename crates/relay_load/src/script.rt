//! The relay script that a number makes.

ghost use Rattle.std.specs.Prelude.{◌≡◌, ◌≤◌, IfOk};
ghost use Rattle.relay_machine.specs.Settings.{AreLawfulSettings};
ghost use Rattle.amt_script.specs.Running.{IsRunnable};
ghost use Rattle.relay_load.specs.Script.{load_script_of, load_settings};

use crate::packets::{PACKETS, append_packets};
use crate::updates::{LOAD_SECRET, append_updates};
use amt_script::{RelayItem, RelayItems, RelayScript};
use amt_values::{Ip, Moment};
use endpoint_membership::Limits;
use relay_machine::{Event, Settings};
use std::alloc::{AllocError, Global};

// Room for one membership of each endpoint.
fn load_settings(count: u32) -> Settings
    requires least { 1 ≤ count }
    requires most { count ≤ 65536 }
    ensures value { result ≡ load_settings count }
    ensures lawful { AreLawfulSettings result }
{
    Settings {
        limits: Limits {
            endpoints: count,
            groups: 4,
            sources: 4,
        },
        ..Settings::of_relay(Ip::V4(0xc000_0201))
    }
}

/// The script of so many Updates that a seed makes: moment 0, each Update from another endpoint, and a
/// packet to each of 16 groups.
pub fn load_script(alloc: Global, seed: u32, count: u32) -> Result<RelayScript, AllocError>
    requires least { 1 ≤ count }
    requires most { count ≤ 65536 }
    ensures script { IfOk result (λ script. script ≡ load_script_of seed count) }
    ensures runs { IfOk result (λ script. IsRunnable script) }
{
    let start = Moment::new(0).unwrap();
    let mut items = RelayItems::with_room(alloc, 1 + count as usize + PACKETS as usize)?;
    items.push(RelayItem::Event(Event::Moment(start)))?;
    append_updates(alloc, seed, count, &mut items)?;
    append_packets(alloc, &mut items)?;
    Ok(RelayScript {
        settings: load_settings(count),
        secret: LOAD_SECRET,
        items,
    })
}
