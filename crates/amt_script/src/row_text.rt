//! The text of the memberships that are shown. It knows no relay.

ghost use Rattle.std.specs.Prelude.{◌≡◌, ◌∷◌, ◌++◌, [], codes, OnOk};
ghost use Rattle.script_lines.specs.Texts.{mode_text};
ghost use Rattle.amt_script.specs.Texts.{count_line, row_text, sources_text};

use amt_values::{Bytes, Ip, append_numeral};
use endpoint_membership::Row;
use script_lines::{append_ip, append_peer, mode_word};
use source_filter::Filter;
use std::alloc::AllocError;

/// Puts the sources of a list at the end, with commas between them, or a dash for none.
pub fn append_sources(text: &mut Bytes, sources: &[Ip]) -> Result<(), AllocError>
    ensures { OnOk result (text.new ≡ text.old ++ sources_text sources.now) }
{
    let Some((first, rest)) = sources.split_first() else {
        return text.append(b"-");
    };
    append_ip(text, first)?;
    for source in rest {
        text.append(b",")?;
        append_ip(text, source)?;
    }
    Ok(())
}

// The mode and the sources, which end a membership's line.
fn append_filter(text: &mut Bytes, filter: &Filter) -> Result<(), AllocError>
    ensures { OnOk result (text.new ≡ text.old
        ++ (mode_text filter.now.mode ++ (codes " " ++ (sources_text filter.now.sources ++ 10 ∷ [])))) }
{
    text.append(mode_word(filter.mode()).as_bytes())?;
    text.append(b" ")?;
    append_sources(text, filter.sources())?;
    text.append(b"\n")
}

/// Puts a membership's line at the end.
#[tactic(auto, unfolding(crate::specs::Texts::row_text))]
pub fn append_row(text: &mut Bytes, row: &Row) -> Result<(), AllocError>
    ensures { OnOk result (text.new ≡ text.old ++ row_text row.now) }
{
    text.append(b"* ")?;
    append_peer(text, &row.endpoint.peer())?;
    text.append(b" ")?;
    append_ip(text, &row.group)?;
    text.append(b" ")?;
    append_filter(text, &row.filter)
}

/// Puts the line before the memberships at the end: how many there are.
pub fn append_row_count(text: &mut Bytes, number: u64, count: u64) -> Result<(), AllocError>
    ensures { OnOk result (text.new ≡ text.old ++ count_line number count) }
{
    text.append(b"= ")?;
    append_numeral(text, number)?;
    text.append(b" rows ")?;
    append_numeral(text, count)?;
    text.append(b"\n")
}
