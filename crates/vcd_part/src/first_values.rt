//! The last change of each code, until the first tick of a window is past.

ghost use Rattle.std.specs.Prelude.{◌≡◌, ◌++◌, ◌∷◌, ◌<◌, [], length, OnOk, IfOk, slice_set};
ghost use Rattle.vcd_text.specs.EmittedText.{Emits};
ghost use Rattle.vcd_part.specs.inside.FirstValues.{bodies, lines_of};

use std::alloc::Global;
use vcd_core::{NoMemory, Sink};
use vcd_text::{Output, write_byte, write_bytes};

/// The bytes of the last change of each code, in the order of the codes; none before its first one.
#[derive(Drop)]
pub struct FirstValues {
    pub alloc: Global,
    pub values: Vec<Vec<u8>>,
}

impl FirstValues {
    /// No codes.
    pub fn new(alloc: Global) -> FirstValues
        ensures { bodies result ≡ [] }
    {
        FirstValues {
            alloc,
            values: Vec::new(alloc),
        }
    }

    /// Adds a code, of which no change has come. Returns its index.
    pub fn add(&mut self) -> Result<usize, NoMemory>
        ensures added { OnOk result (bodies self.new ≡ bodies self.old ++ [] ∷ []) }
        ensures index { IfOk result (λ index. index ≡ length (bodies self.old)) }
    {
        let index = self.values.len();
        self.values.push(Vec::new(self.alloc))?;
        Ok(index)
    }

    /// A change of the code at `index` has come, with these bytes.
    pub fn put(&mut self, index: usize, body: &[u8]) -> Result<(), NoMemory>
        requires { index < length (bodies self.old) }
        ensures { OnOk result (bodies self.new ≡ slice_set (bodies self.old) index body.now) }
    {
        let value = &mut self.values[index];
        value.clear();
        value.extend_from_slice(body)?;
        Ok(())
    }

    /// Writes each of the changes on a line of its own.
    pub fn write<W: Sink>(&self, output: &mut Output<W>)
        ensures { Emits W.Sink output.old output.new (lines_of (bodies self.now)) }
    {
        for value in &self.values {
            write_line(output, value.as_slice());
        }
    }
}

/// Writes a change on a line of its own, unless it is none.
fn write_line<W: Sink>(output: &mut Output<W>, value: &[u8])
    ensures { Emits W.Sink output.old output.new (lines_of (value.now ∷ [])) }
{
    if value.is_empty() {
        return;
    }
    write_byte(output, b'\n');
    write_bytes(output, value);
}
