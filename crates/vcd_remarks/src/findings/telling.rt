//! Remarks that tell what was found.

ghost use Rattle.std.specs.Prelude.{◌≡◌, ◌++◌, ◌∷◌, [], OnOk, codes};
ghost use Rattle.std.specs.Fmt.{decimal};
ghost use Rattle.std.specs.List.{join_by, flat_map};
ghost use Rattle.vcd_remarks.specs.Findings as spec;
ghost use Rattle.vcd_remarks.specs.Remarks.{remarks_text};

use crate::findings::finding::Finding;
use crate::findings::found_ticks::{FoundTicks, SHOWN_TICKS};
use crate::remarks::appending::append_remark_head;
use vcd_script::{MemoryResult, append_bytes, append_decimal};

/// Appends the remarks on what was found at the line of this number; none on what was found at no
/// tick.
pub fn append_findings(text: &mut Vec<u8>, number: u64, findings: &[Finding]) -> MemoryResult<()>
    ensures { OnOk result (text.new.items
        ≡ text.old.items ++ remarks_text number (flat_map spec.finding_text findings.now)) }
{
    for finding in findings {
        append_finding(text, number, finding)?;
    }
    Ok(())
}

/// Appends the remark on what was found, unless it was found at no tick.
fn append_finding(text: &mut Vec<u8>, number: u64, finding: &Finding) -> MemoryResult<()>
    ensures { OnOk result (text.new.items
        ≡ text.old.items ++ remarks_text number (spec.finding_text finding.now)) }
{
    if finding.ticks.count == 0 {
        return Ok(());
    }
    append_remark_head(text, number)?;
    append_told(text, finding)?;
    append_bytes(text, b"\n")
}

/// Appends what a remark tells of a finding.
fn append_told(text: &mut Vec<u8>, finding: &Finding) -> MemoryResult<()>
    ensures { OnOk result (text.new.items ≡ text.old.items
        ++ (spec.words_of_kind finding.now.kind ++ codes ": " ++ decimal finding.now.ticks.count
        ++ spec.most_text finding.now.most ++ spec.ticks_text finding.now.ticks)) }
{
    text.extend_from_slice(finding.kind.words().as_bytes())?;
    text.extend_from_slice(b": ")?;
    append_decimal(text, finding.ticks.count)?;
    append_most(text, finding.most)?;
    append_ticks(text, &finding.ticks)
}

/// Appends how many ticks there are at most, unless that is 0.
fn append_most(text: &mut Vec<u8>, most: u64) -> MemoryResult<()>
    ensures { OnOk result (text.new.items ≡ text.old.items ++ spec.most_text most) }
{
    if most == 0 {
        return Ok(());
    }
    text.extend_from_slice(b" (ticks at most: ")?;
    append_decimal(text, most)?;
    append_bytes(text, b")")
}

/// Appends the first ticks, and whether there are more.
fn append_ticks(text: &mut Vec<u8>, found: &FoundTicks) -> MemoryResult<()>
    ensures { OnOk result (text.new.items ≡ text.old.items ++ spec.ticks_text found.now) }
{
    text.extend_from_slice(b", at ")?;
    append_joined(text, found.shown())?;
    if found.count > SHOWN_TICKS as u64 {
        text.extend_from_slice(b", ..")?;
    }
    Ok(())
}

/// Appends ticks with commas between them.
fn append_joined(text: &mut Vec<u8>, ticks: &[u64]) -> MemoryResult<()>
    ensures { OnOk result
        (text.new.items ≡ text.old.items ++ join_by decimal (codes ", ") ticks.now) }
{
    match ticks {
        [first, others @ ..] => {
            append_decimal(text, *first)?;
            append_others(text, others)
        }
        [] => Ok(()),
    }
}

/// Appends ticks, each after a comma.
fn append_others(text: &mut Vec<u8>, ticks: &[u64]) -> MemoryResult<()>
    ensures { OnOk result (text.new.items
        ≡ text.old.items ++ flat_map (λ tick. codes ", " ++ decimal tick) ticks.now) }
{
    for tick in ticks {
        text.extend_from_slice(b", ")?;
        append_decimal(text, *tick)?;
    }
    Ok(())
}
