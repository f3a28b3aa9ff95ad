//! The newest mark of a file.

ghost use Rattle.std.specs.Prelude.{◌≡◌, ◌⊎◌, IfErr};
ghost use Rattle.vcd_devices.specs.declared.verify_fault.VerifyFault.TheVariants as faults;

use crate::capture_search::CaptureSearch;
use crate::verify_fault::VerifyFault;
use std::alloc::Global;
use vcd_core::{NoMemory, Source};

/// How many bytes of a file are read at once.
const CHUNK: usize = 65_536;

/// The text of the newest mark among the declarations of a file: what comes after its first word,
/// up to the end of its last. Without a mark it is empty.
pub fn read_newest_mark<S: Source>(alloc: Global, source: &mut S) -> Result<Vec<u8>, VerifyFault>
    ensures { IfErr result (λ e. (e ≡ faults.NotRead) ⊎ (e ≡ faults.NoMemory)) }
{
    let mut search = CaptureSearch::new();
    let mut mark = Vec::new(alloc);
    let mut buffer = [0; CHUNK];
    for _ in 0..u64::MAX {
        let Ok(count) = source.read(&mut buffer) else {
            return Err(VerifyFault::NotRead);
        };
        let Ok(()) = keep_mark(&mut search, &mut mark, &buffer[..count]) else {
            return Err(VerifyFault::NoMemory);
        };
        if count == 0 || search.is_over() {
            return Ok(mark);
        }
    }
    Err(VerifyFault::NotRead)
}

/// Goes on with further bytes of a file, of which those of the newest mark are kept.
fn keep_mark(search: &mut CaptureSearch, mark: &mut Vec<u8>, bytes: &[u8]) -> Result<(), NoMemory> {
    for byte in bytes {
        let was_within = search.is_within_mark();
        search.take(*byte);
        if !search.is_within_mark() {
            continue;
        }
        if !was_within {
            mark.clear();
        }
        mark.push(*byte)?;
    }
    Ok(())
}
