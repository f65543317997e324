//! The text of a step of a relay and its dual gateways. It knows no script and no sink.

ghost use Rattle.std.specs.Prelude.{◌≡◌, ◌+◌, ◌<◌, ◌^◌, ◌++◌, codes, map, sum_by, IfOk, OnOk};
ghost use Rattle.pair_script.specs.Texts.{downs_in, parts_text, ups_in};
ghost use Rattle.script_lines.specs.Texts.{family_text};
ghost use Rattle.socket_merge.specs.FullReport.{family_by};
ghost use Rattle.amt_dual_script.specs.Texts.{part_named};

use amt_dual::{DualPart, DualParts};
use amt_pair::Part;
use amt_values::Bytes;
use pair_script::append_parts;
use std::alloc::{AllocError, Global};

// The name of a machine: `NAME v4` or `NAME v6`.
fn machine_name(name: Bytes, v6: bool) -> Result<Bytes, AllocError>
    ensures { IfOk result (λ both. both ≡ name ++ (codes " " ++ family_text (family_by v6))) }
{
    let mut both = name;
    both.append(if v6 { b" v6" } else { b" v4" })?;
    Ok(both)
}

// The part as one of a pair.
fn part_named(part: DualPart) -> Result<Part, AllocError>
    ensures { IfOk result (λ named. named ≡ part_named part) }
{
    match part {
        DualPart::Relay(step) => Ok(Part::Relay(step)),
        DualPart::Gateway { name, v6, step } => Ok(Part::Gateway {
            name: machine_name(name, v6)?,
            step,
        }),
        DualPart::Absent(number) => Ok(Part::Absent(number)),
    }
}

// All parts, in their order.
fn parts_named(alloc: Global, parts: DualParts) -> Result<Vec<Part>, AllocError>
    ensures { IfOk result (λ named. named.items ≡ map part_named parts) }
{
    let mut named = Vec::with_capacity(alloc, parts.len())?;
    for part in parts.into_vec() {
        named.push_reserved(part_named(part)?);
    }
    Ok(named)
}

/// Puts the lines of the parts of an event of this number at the end, where `up` datagrams were sent to the
/// relay before and `down` by it.
pub fn append_steps(
    alloc: Global,
    text: &mut Bytes,
    number: u64,
    up: u64,
    down: u64,
    parts: DualParts,
) -> Result<(), AllocError>
    requires up { up + sum_by ups_in (map part_named parts) < 2 ^ 64 }
    requires down { down + sum_by downs_in (map part_named parts) < 2 ^ 64 }
    ensures { OnOk result (text.new ≡ text.old ++ parts_text number up down (map part_named parts)) }
{
    let named = parts_named(alloc, parts)?;
    append_parts(alloc, text, number, up, down, named.as_slice())
}
