//! What is found of the lines of `spi`, while their edges come one at a time.

ghost use Rattle.std.specs.Prelude.{◌≡◌, ◌++◌, [], OnOk, if◌then◌else◌};
ghost use Rattle.vcd_remarks.specs.DecoderFindings as spec;
ghost use Rattle.vcd_remarks.specs.DecoderFindings.{told};
ghost use Rattle.vcd_remarks.specs.Remarks.{remarks_text};
ghost use Rattle.vcd_remarks.specs.inside.SpiFinder.{spi_findings_left};

use crate::edge_finder::EdgeFinder;
use crate::findings::finding::Finding;
use crate::findings::telling::append_findings;
use crate::line_bits::LineBits;
use crate::spi_clock::ClockFinder;
use crate::spi_line::{DataFinder, MISO, MOSI};
use crate::spi_selection::SelectionFinder;
use vcd_core::BitEdge;
use vcd_decode::Spi;
use vcd_script::MemoryResult;

/// Which lines of `spi` are present beside the clock.
#[derive(Clone, Copy)]
pub struct PresentLines {
    pub mosi: bool,
    pub miso: bool,
    pub cs: bool,
}

/// What is found of the lines of `spi`, whose edges come one at a time. It takes some 16 kB and
/// holds no list. An edge takes a few steps.
///
/// Contracts see the findings that are left: what is found once any edges to come have been taken.
#[derive(Clone, Copy)]
pub struct SpiFinder {
    setup: Spi,
    present: PresentLines,
    clk: ClockFinder,
    mosi: DataFinder,
    miso: DataFinder,
    cs: SelectionFinder,
}

impl SpiFinder {
    ghost use Rattle.std.specs.Prelude.{ℕ, List, ◌∷◌, ◌<◌, ◌^◌, Some, Option, is_some, IfSome};
    ghost use Rattle.std.specs.Option.{option_map};
    ghost use Rattle.vcd_core.specs.Contents.{SignalContents};
    ghost use Rattle.vcd_core.specs.declared.bit_edges.BitEdge.{BitEdge};
    ghost use Rattle.vcd_decode.specs.LineEdges.{AreEdgesOf};
    ghost use Rattle.vcd_remarks.specs.DecoderFindings.{bit_line, IsSoundLine};

    /// The finder before the first edge. The lines of an edge are the clock, MOSI, MISO and the
    /// chip select.
    pub fn new(setup: Spi, present: PresentLines) -> SpiFinder
        ensures { (clk : SignalContents) (mosi miso cs : Option SignalContents) (end : ℕ)
            (edges : List BitEdge) → is_some mosi ≡ present.mosi → is_some miso ≡ present.miso
            → is_some cs ≡ present.cs → end < 2 ^ 64 → IsSoundLine end clk
            → IfSome mosi (IsSoundLine end) → IfSome miso (IsSoundLine end)
            → AreEdgesOf (Some (bit_line clk) ∷ option_map bit_line mosi
            ∷ option_map bit_line miso ∷ option_map bit_line cs ∷ []) end edges
            → spi_findings_left result edges ≡ spec.spi_findings setup clk mosi miso cs end }
    {
        SpiFinder {
            setup,
            present,
            clk: ClockFinder::none(),
            mosi: DataFinder::none(),
            miso: DataFinder::none(),
            cs: SelectionFinder::none(),
        }
    }

    /// Appends the remarks on what was found, for the line of this number.
    fn append_told(&self, remarks: &mut Vec<u8>, number: u64) -> MemoryResult<()>
        ensures { OnOk result (remarks.new.items ≡ remarks.old.items
            ++ remarks_text number (told (spi_findings_left self.now []))) }
    {
        let clk = &self.clk.either;
        append_findings(remarks, number, &self.clk.findings())?;
        append_if(
            remarks,
            number,
            self.present.mosi,
            &self.mosi.findings(MOSI, clk),
        )?;
        append_if(
            remarks,
            number,
            self.present.miso,
            &self.miso.findings(MISO, clk),
        )?;
        append_if(remarks, number, self.present.cs, &self.cs.findings())?;
        Ok(())
    }
}

impl EdgeFinder for SpiFinder {
    ghost use Rattle.vcd_remarks.specs.DecoderFindings.{told};

    ghost remarks_left = { λ f edges. told (spi_findings_left f edges) };

    fn take(&mut self, edge: &BitEdge) -> MemoryResult<()> {
        let mosi = LineBits {
            before: edge.before[1],
            at: edge.at[1],
        };
        let miso = LineBits {
            before: edge.before[2],
            at: edge.at[2],
        };
        self.clk.take(edge);
        self.mosi.take(&self.setup, edge, mosi);
        self.miso.take(&self.setup, edge, miso);
        self.cs.take(&self.setup, edge);
        Ok(())
    }

    fn append_remarks(&mut self, remarks: &mut Vec<u8>, number: u64) -> MemoryResult<()> {
        self.append_told(remarks, number)
    }
}

/// Appends the remarks on what was found of a line, if it is present.
fn append_if(
    text: &mut Vec<u8>,
    number: u64,
    is_present: bool,
    findings: &[Finding],
) -> MemoryResult<()>
    ensures { OnOk result (text.new.items ≡ text.old.items
        ++ remarks_text number (told (if is_present then findings.now else []))) }
{
    if is_present {
        return append_findings(text, number, findings);
    }
    Ok(())
}
