//! One join of a gateway's settings file. It knows no other join.

ghost use Rattle.std.specs.Prelude.{◌≡◌, ◌⊎◌, IfOk, IfErr, OnOk, Some};
ghost use Rattle.script_lines.specs.Form.{an_address_of};
ghost use Rattle.gateway_script.specs.Says.{AreAddressTexts};
ghost use Rattle.toml.specs.{Data.{as_str}, View.{items_view, table_view}};
ghost use Rattle.amt_config.specs.{Arrays.{those_in}, Join.{AreListed, JoinOf, join_keys}, Key.{IsRight, IsSomeUnfit, required, some_texts}, Reading.{MayFail, MayFailFirst}, Table.{AreKnown, IsFirstFault, told}, Words.{words_in}};
ghost use Rattle.std.specs.Prelude.{codes};
ghost use Rattle.amt_config.specs.declared.fault.KeyFault.TheVariants as causes;

use crate::arrays::texts_at;
use crate::config::Join;
use crate::fault::{ConfigFault, KeyFault, told};
use crate::forms::{GroupOf, ModeWord};
use crate::key::FileKey;
use crate::table::{TableKind, check_keys};
use crate::texts::{name_at, required};
use amt_values::Bytes;
use group_records::Family;
use script_lines::read_address;
use source_filter::{Filter, Ips};
use std::alloc::Global;
use toml::{Table, Value};

// The addresses of the family that the texts among the items are.
fn read_sources(alloc: Global, family: Family, items: &[Value]) -> Result<Ips, ConfigFault>
    ensures found { IfOk result (λ sources. AreAddressTexts (Some family) sources (those_in as_str (items_view items.now))) }
    ensures fault { IfErr result (λ fault. (IsSomeUnfit (an_address_of (Some family)) (those_in as_str (items_view items.now))
        × (fault ≡ told (codes "sources") causes.Address)) ⊎ (fault ≡ ConfigFault.Memory)) }
{
    let mut sources = Ips::new(alloc);
    for item in items {
        if let Some(text) = item.as_str() {
            let Some(source) = read_address(Some(family), text.as_bytes()) else {
                return Err(told(alloc, FileKey::Sources, KeyFault::Address));
            };
            let Ok(()) = sources.push(source) else {
                return Err(ConfigFault::Memory);
            };
        }
    }
    Ok(sources)
}

// The sources, in the order of the file.
fn sources_at(alloc: Global, family: Family, table: &Table) -> Result<Ips, ConfigFault>
    ensures found { IfOk result (AreListed (Some family) (table_view table.now)) }
    ensures right { OnOk result (IsRight (table_view table.now) (required (codes "sources") (some_texts (an_address_of (Some family))))) }
    ensures fault { IfErr result (MayFail (table_view table.now) (required (codes "sources") (some_texts (an_address_of (Some family))))) }
{
    let items = match texts_at(alloc, table, FileKey::Sources) {
        Ok(items) => items,
        Err(fault) => return Err(fault),
    };
    match read_sources(alloc, family, items) {
        Ok(sources) => Ok(sources),
        Err(fault) => Err(fault),
    }
}

// The values of all keys.
fn read_keys(alloc: Global, family: Family, table: &Table) -> Result<Join, ConfigFault>
    requires { AreKnown (words_in TableKind.Join) (table_view table.now) }
    ensures found { IfOk result (JoinOf (Some family) (table_view table.now)) }
    ensures fault { IfErr result (MayFailFirst (join_keys (Some family)) (table_view table.now) ⊥) }
{
    let name = name_at(alloc, table, FileKey::Name)?;
    let group = required(alloc, table, FileKey::Group, &GroupOf(family))?;
    let mode = required(alloc, table, FileKey::Mode, &ModeWord)?;
    let sources = sources_at(alloc, family, table)?;
    let Ok(filter) = Filter::new(alloc, mode, sources.as_slice()) else {
        return Err(ConfigFault::Memory);
    };
    match Bytes::copied(alloc, name.as_bytes()) {
        Ok(name) => Ok(Join {
            name,
            group,
            filter,
        }),
        Err(_) => Err(ConfigFault::Memory),
    }
}

/// The join that a table is.
pub fn read_join(alloc: Global, family: Family, table: &Table) -> Result<Join, ConfigFault>
    ensures found { IfOk result (JoinOf (Some family) (table_view table.now)) }
    ensures fault { IfErr result (λ fault. IsFirstFault (join_keys (Some family)) (λ table fault. ⊥) (table_view table.now) fault
        ⊎ (fault ≡ ConfigFault.Memory)) }
{
    match check_keys(alloc, table, TableKind::Join) {
        Ok(()) => {}
        Err(fault) => return Err(fault),
    }
    match read_keys(alloc, family, table) {
        Ok(join) => Ok(join),
        Err(fault) => Err(fault),
    }
}
