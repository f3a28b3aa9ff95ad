//! Frames of an asynchronous serial line.

ghost use Rattle.std.specs.Prelude.{◌≡◌, ◌++◌, ◌∷◌, [], IfOk, OnOk, Some, None};
ghost use Rattle.std.specs.Option.{option_to_list};
ghost use Rattle.vcd_core.specs.Wave.{AllUpTo};
ghost use Rattle.vcd_decode.specs.WaveLines.{line_of};
ghost use Rattle.vcd_decode.specs.Uart.{uart_annotations};
ghost use Rattle.vcd_decode.specs.inside.UartFrames as walk;

mod frame_kinds;
mod samples;

use crate::annotation::{Annotation, Kind};
use crate::edge_decoder::{EdgeDecoder, decode_edges};
use crate::letters::{is_one, is_zero};
use crate::uart_frames::samples::{find_start, take_samples};
use crate::uart_setup::Uart;
use std::alloc::Global;
use std::collections::VecDeque;
use std::marker::Model;
use vcd_core::{Bit, BitEdge, BitEdges, NoMemory, Wave};

/// The frames of a line of one bit in a capture that ends at the tick `end`, in rising order. Each
/// extends from the tick at which it begins to the one at which its last bit is sampled.
///
/// A frame begins where the line falls from 1 to 0 after the frame before. There is no frame if the
/// line is not 0 in the middle of the start bit. A frame whose last bit is sampled after the end is
/// `CutOff`, up to the end.
///
/// It is one walk over the changes, with a constant number of steps for each, in the mean over all.
/// The memory is that of the annotations and of the falls of half a bit.
pub fn uart(alloc: Global, wave: &Wave, end: u64, setup: &Uart) -> Result<Vec<Annotation>, NoMemory>
    requires one_bit { wave.now.width ≡ 1 }
    requires within { AllUpTo end wave.now.changes }
    ensures { IfOk result (λ found.
        found.items ≡ uart_annotations (line_of wave.now) end setup.now) }
{
    let edges = BitEdges::new(Some(wave), None, None, None);
    decode_edges(alloc, UartDecoder::new(alloc, end, *setup), edges)
}

/// What [`uart`] does at each edge, for a line whose edges come one at a time.
///
/// The line keeps its letter from one edge to the next, so at an edge all samples before it are
/// taken. Half a bit after a fall it is known whether its start bit is 0 and so a frame begins. So
/// the decoder holds the falls of half a bit, and the letters of one frame. An edge takes a
/// constant number of steps, in the mean over all edges.
///
/// Contracts see the annotations that are left to give, for any edges to come.
#[derive(Drop)]
pub struct UartDecoder {
    setup: Uart,
    end: u64,
    /// The letter of the line since the last edge.
    letter: Bit,
    /// The falls after the frames so far, from the first one on whose start bit is not yet sampled.
    falls: VecDeque<u64>,
    /// The first tick of a frame whose start bit was 0, if one is under way.
    start: Option<u64>,
    /// The letters of that frame so far, after the start bit.
    letters: Vec<Bit>,
}

impl Model for UartDecoder {
    ghost use Rattle.vcd_decode.specs.inside.UartFrames.{UartState};

    ghost Value = { UartState };

    ghost view = { λ d. record {
      setup = d.setup;
      end = d.end;
      letter = d.letter;
      falls = d.falls.items;
      start = d.start;
      letters = d.letters.items;
    } };
}

impl UartDecoder {
    ghost use Rattle.std.specs.Prelude.{ℕ, List};
    ghost use Rattle.vcd_core.specs.declared.bit.Bit.{Bit};
    ghost use Rattle.vcd_core.specs.declared.bit_edges.BitEdge.{BitEdge};
    ghost use Rattle.vcd_decode.specs.LineEdges.{AreEdgesOf};

    /// The decoder before the first edge. The first line of an edge is the line; `end` is the
    /// capture's last tick.
    pub fn new(alloc: Global, end: u64, setup: Uart) -> UartDecoder
        ensures frames { (f : ℕ → Bit) (edges : List BitEdge)
            → AreEdgesOf (Some f ∷ None ∷ None ∷ None ∷ []) end edges
            → walk.uart_annotations_left result edges ≡ uart_annotations f end setup }
        ensures state { result ≡ walk.first_state end setup }
    {
        UartDecoder {
            setup,
            end,
            letter: Bit::X,
            falls: VecDeque::new(alloc),
            start: None,
            letters: Vec::new(alloc),
        }
    }

    /// Takes the next edge. Returns the frame that ends before it, if one does that has not been
    /// given.
    pub fn frame_before(&mut self, edge: &BitEdge) -> Result<Option<Annotation>, NoMemory>
        ensures frame { IfOk result (λ frame. frame ≡ walk.frame_before self.old edge.now) }
        ensures after { OnOk result (self.new ≡ walk.state_after self.old edge.now) }
    {
        let before = self.letter;
        let through = edge.tick.saturating_sub(1);
        let start = find_start(&mut self.falls, self.start, &self.setup, before, through);
        let frame = take_samples(&mut self.letters, start, &self.setup, before, through)?;
        let start = start_unless_whole(frame, start);
        let letter = edge.at[0].unwrap_or(Bit::X);
        if start.is_none() && is_one(before) && is_zero(letter) {
            self.falls.push_back(edge.tick)?;
        }
        self.start = start;
        self.letter = letter;
        Ok(frame)
    }

    /// The frame that is left after the last edge: it ends by the capture's end, or is cut off
    /// there.
    pub fn last_frame(&mut self) -> Result<Option<Annotation>, NoMemory>
        ensures { IfOk result (λ frame. frame ≡ walk.last_frame self.old) }
    {
        let end = self.end;
        let start = find_start(&mut self.falls, self.start, &self.setup, self.letter, end);
        let frame = take_samples(&mut self.letters, start, &self.setup, self.letter, end)?;
        if frame.is_some() {
            return Ok(frame);
        }
        Ok(cut_off_frame(end, &self.falls, start))
    }

    /// The tick from which on frames may begin or have begun that are not given; none if there is
    /// no such frame yet.
    pub fn pending_start(&self) -> Option<u64>
        ensures { result ≡ walk.pending_start self.now.start self.now.falls }
    {
        if self.start.is_some() {
            return self.start;
        }
        self.falls.front().copied()
    }
}

impl EdgeDecoder for UartDecoder {
    ghost use Rattle.vcd_decode.specs.inside.UartFrames.{uart_annotations_left};

    ghost annotations_left = { uart_annotations_left };

    /// Takes the next edge, and appends the frame that ends before it.
    #[tactic(auto, unfolding(crate::specs::inside::UartFrames::uart_annotations_left))]
    fn take(&mut self, found: &mut Vec<Annotation>, edge: &BitEdge) -> Result<(), NoMemory> {
        let frame = self.frame_before(edge)?;
        push_frame(found, frame)
    }

    /// Appends the frame that is left, if there is one.
    #[tactic(auto, unfolding(crate::specs::inside::UartFrames::uart_annotations_left))]
    fn finish(&mut self, found: &mut Vec<Annotation>) -> Result<(), NoMemory> {
        let frame = self.last_frame()?;
        push_frame(found, frame)
    }
}

/// The beginning of the frame under way, if that is not whole.
fn start_unless_whole(frame: Option<Annotation>, start: Option<u64>) -> Option<u64>
    ensures { result ≡ walk.start_unless_whole frame start }
{
    match frame {
        Some(_frame) => None,
        None => start,
    }
}

/// The frame that the end cuts off: the one under way, or else the one that the first fall begins.
fn cut_off_frame(end: u64, falls: &VecDeque<u64>, start: Option<u64>) -> Option<Annotation>
    ensures { result ≡ walk.cut_off_frame end falls.now.items start }
{
    let start = match start {
        Some(start) => start,
        None => falls.front().copied()?,
    };
    Some(Annotation {
        start,
        end,
        kind: Kind::CutOff,
    })
}

/// Appends a frame if there is one.
fn push_frame(found: &mut Vec<Annotation>, frame: Option<Annotation>) -> Result<(), NoMemory>
    ensures { OnOk result (found.new.items ≡ found.old.items ++ option_to_list frame) }
{
    if let Some(frame) = frame {
        found.push(frame)?;
    }
    Ok(())
}
