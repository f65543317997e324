//! The Updates of a load.

ghost use Rattle.std.specs.{Prelude.{◌≡◌, ◌≤◌, ◌<◌, ◌++◌, map, IfOk, OnOk}, List.{AllByRecursion}};
ghost use Rattle.amt_script.specs.{Running.{IsItem}, declared.script.RelayItem.TheVariants.{Event as EventItem}};
ghost use Rattle.relay_machine.specs.{EventSize.{IsEvent}, declared.settings.Settings.{Settings as SettingsValue}};
ghost use Rattle.relay_load.specs.{Reports.{AreReports, group_at}, Script.{load_updates}, Updates.{load_secret, record_with, update_with}};

use crate::generator::Generator;
use crate::record::{Choice, draw_choice};
use crate::reports::{Reports, write_reports};
use amt_messages::{Message, encode};
use amt_script::{RelayItem, RelayItems};
use amt_values::{Endpoint, Ip, Peer};
use relay_machine::Event;
use response_mac::{MacKey, Secret};
use std::alloc::{AllocError, Global};

/// The relay's secret.
pub const LOAD_SECRET: Secret = Secret([0; 32]);

/// 10.0.0.0, from which the addresses of the endpoints count.
const ENDPOINT_BASE: u32 = 0x0a00_0000;

// The Update of this place.
#[tactic(auto, unfolding(crate::specs::Updates::update_with))]
fn write_update(
    alloc: Global,
    key: &MacKey,
    reports: &Reports,
    place: u32,
    choice: &Choice,
) -> Result<Event, AllocError>
    requires key { key.now ≡ load_secret }
    requires reports { AreReports reports.now }
    requires place { place ≤ 65536 }
    requires group { choice.now.group_index < 16 }
    ensures event { IfOk result (λ event. event ≡ update_with place choice.now.port choice.now.nonce
        (record_with choice.now.excludes (group_at choice.now.group_index))) }
    ensures sized { (settings : SettingsValue) → IfOk result (IsEvent settings) }
{
    let address = ENDPOINT_BASE + place;
    let endpoint = Endpoint::named(u128::from(address), choice.port);
    let update = Message::Update {
        mac: key.mac(&endpoint, choice.nonce),
        nonce: choice.nonce,
        inner: reports.chosen(alloc, choice)?,
    };
    Ok(Event::Datagram {
        bytes: encode(alloc, &update)?,
        from: Peer {
            ip: Ip::V4(address),
            port: choice.port,
        },
    })
}

/// Puts all Updates at the end.
pub fn append_updates(
    alloc: Global,
    seed: u32,
    count: u32,
    items: &mut RelayItems,
) -> Result<(), AllocError>
    requires { count ≤ 65536 }
    ensures updates { OnOk result (items.new ≡ items.old ++ map EventItem (load_updates seed count)) }
    ensures sized { (settings : SettingsValue) → OnOk result
        (AllByRecursion (IsItem settings) items.old → AllByRecursion (IsItem settings) items.new) }
{
    let key = MacKey::new(LOAD_SECRET);
    let reports = write_reports(alloc)?;
    let mut generator = Generator {
        number: u64::from(seed),
    };
    for before in 0..count {
        let choice = draw_choice(&mut generator);
        let event = write_update(alloc, &key, &reports, before + 1, &choice)?;
        items.push(RelayItem::Event(event))?;
    }
    Ok(())
}
