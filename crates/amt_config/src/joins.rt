//! The joins of a gateway's settings file, each opened after those before it.

ghost use Rattle.std.specs.Prelude.{◌≡◌, ◌⊎◌, [], IfOk, IfErr, OnOk, Some, true};
ghost use Rattle.amt_values.specs.Group.{is_forwardable};
ghost use Rattle.socket_merge.specs.Sockets.{AreOfGroup, ForHistory, SocketsHold};
ghost use Rattle.toml.specs.{Data.{as_table}, View.{items_view}};
ghost use Rattle.amt_config.specs.{Arrays.{those_in}, Join.{AreJoins, FailsInJoins, MayOpen, with_join}, Reading.{IsRefusedAfter}};

use crate::config::{Join, Joins};
use crate::fault::{ConfigFault, KeyFault, in_join, told};
use crate::join::read_join;
use crate::key::FileKey;
use amt_values::Moment;
use group_records::{Family, ITEM_LIMIT};
use socket_merge::{SocketFault, Sockets};
use std::alloc::Global;
use toml::Value;

// Opens the socket of a join, as the gateway will.
fn open(alloc: Global, sockets: &mut Sockets, join: &Join) -> Result<(), ConfigFault>
    requires forwarded { is_forwardable join.now.group ≡ true }
    requires family { AreOfGroup join.now.group join.now.filter }
    ensures opened { ForHistory sockets.old (λ history. OnOk result (MayOpen history join.now)) }
    ensures stands { ForHistory sockets.old (λ history. OnOk result (SocketsHold sockets.new (with_join join.now history))) }
    ensures fault { ForHistory sockets.old (λ history. IfErr result (IsRefusedAfter history join.now)) }
{
    if join.filter.sources().len() > ITEM_LIMIT {
        return Err(told(alloc, FileKey::Join, KeyFault::Range));
    }
    let at = Moment::new(0).unwrap();
    match sockets.open(alloc, join.name.as_slice(), &join.group, &join.filter, &at) {
        Ok(()) => Ok(()),
        Err(SocketFault::Memory) => Err(ConfigFault::Memory),
        Err(_) => Err(told(alloc, FileKey::Join, KeyFault::Range)),
    }
}

/// The joins that the tables among the items are.
pub fn read_joins(alloc: Global, family: Family, items: &[Value]) -> Result<Joins, ConfigFault>
    ensures found { IfOk result (AreJoins (Some family) [] (those_in as_table (items_view items.now))) }
    ensures fault { IfErr result (λ fault. FailsInJoins (Some family) [] (those_in as_table (items_view items.now)) fault
        ⊎ (fault ≡ ConfigFault.Memory)) }
{
    let Ok(mut sockets) = Sockets::new(alloc) else {
        return Err(ConfigFault::Memory);
    };
    let mut joins = Joins::new(alloc);
    for item in items {
        if let Some(table) = item.as_table() {
            let join = match read_join(alloc, family, table) {
                Ok(join) => join,
                Err(fault) => return Err(in_join(alloc, fault)),
            };
            match open(alloc, &mut sockets, &join) {
                Ok(()) => {}
                Err(fault) => return Err(fault),
            }
            let Ok(()) = joins.push(join) else {
                return Err(ConfigFault::Memory);
            };
        }
    }
    Ok(joins)
}
