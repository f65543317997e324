//! The fields of a filter: the addresses of its sources. It knows no kind of line.

ghost use Rattle.std.specs.Prelude.{IfOk, IfErr};
ghost use Rattle.script_lines.specs.Lines.{fields};
ghost use Rattle.gateway_script.specs.{Reading.{FailsInSources}, Says.{AreAddressTexts}};

use group_records::Family;
use script_lines::{LineError, Reason, next_field, read_address};
use source_filter::Ips;
use std::alloc::Global;

/// The addresses of these fields.
pub fn read_sources(alloc: Global, family: Option<Family>, values: &[u8]) -> Result<Ips, LineError>
    ensures found { IfOk result (λ sources. AreAddressTexts family sources (fields values.now)) }
    ensures reason { IfErr result (FailsInSources family (fields values.now)) }
{
    let mut sources = Ips::new(alloc);
    let mut left = values;
    while let Some((text, rest)) = next_field(left) {
        let Some(source) = read_address(family, text) else {
            return Err(LineError::Bad(Reason::Address));
        };
        let Ok(()) = sources.push(source) else {
            return Err(LineError::Memory);
        };
        left = rest;
    }
    Ok(sources)
}
