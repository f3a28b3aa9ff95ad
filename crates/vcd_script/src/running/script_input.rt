//! The script, which a run reads whole before it runs the first line.

ghost use Rattle.std.specs.Prelude.{◌≡◌, ◌<◌, ◌≤◌, ◌++◌, ℕ, false, nat_lt, List, Option};
ghost use Rattle.std.specs.Prelude.{length, vec_len, OnOk, IfOk, IfErr, IfSome};
ghost use Rattle.std.specs.Io.KnownBytes.{Consumes, IsAtEnd};
ghost use Rattle.vcd_core.specs.Devices.{device_end, IsRead};
ghost use Rattle.vcd_script.specs.ScriptFaults.{ScriptFails};

use crate::running::RunError;
use std::alloc::Global;
use vcd_core::Source;

/// The most bytes that a script may have: 1 MiB.
pub const SCRIPT_LIMIT: usize = 1_048_576;

/// The number of bytes that one read asks for.
const BLOCK: usize = 8192;

/// Reads the whole script, as a run does before its first line. It holds the script, and a block of
/// 8 KiB.
pub fn read_script<S: Source>(alloc: Global, source: &mut S) -> Result<Vec<u8>, RunError>
    requires { S.has_failed source.old ≡ false }
    ensures all { IfOk result (λ script. IfSome (S.coming source.old)
        (λ bytes. script.items ≡ bytes)) }
    ensures short { IfOk result (λ script. length script.items ≤ SCRIPT_LIMIT) }
    ensures is_read { OnOk result (IsRead SCRIPT_LIMIT
        (device_end S.coming S.has_failed source.old source.new)) }
    ensures fails { IfErr result
        (ScriptFails (device_end S.coming S.has_failed source.old source.new)) }
{
    let mut script = Vec::new(alloc);
    let mut block = [0u8; BLOCK];
    while read_block(source, &mut script, &mut block)? {}
    Ok(script)
}

/// Appends the bytes of one read. Returns whether there were any.
fn read_block<S: Source>(
    source: &mut S,
    script: &mut Vec<u8>,
    block: &mut [u8],
) -> Result<bool, RunError>
    requires ready { S.has_failed source.old ≡ false }
    requires room { vec_len script.old ≤ SCRIPT_LIMIT }
    requires block { 0 < length block.old }
    ensures more { IfOk result (λ more. (chunk : List ℕ)
        × Consumes (S.coming source.old) (S.coming source.new) chunk
        × (script.new.items ≡ script.old.items ++ chunk)
        × (more ≡ nat_lt 0 (length chunk))) }
    ensures within { OnOk result (vec_len script.new ≤ SCRIPT_LIMIT) }
    ensures at_end { IfOk result (λ more. more ≡ false → IsAtEnd (S.coming source.new)) }
    ensures ready { OnOk result (S.has_failed source.new ≡ false) }
    ensures fails { (all : Option (List ℕ))
        → Consumes all (S.coming source.old) script.old.items → let now = source.new in
        IfErr result (ScriptFails
        (record { before = all; after = S.coming now; has_failed = S.has_failed now })) }
{
    let Ok(count) = source.read(block) else {
        return Err(RunError::ScriptReadFault);
    };
    if count > SCRIPT_LIMIT - script.len() {
        return Err(RunError::ScriptTooLarge);
    }
    if script.extend_from_slice(&block[..count]).is_err() {
        return Err(RunError::NoMemory { line: 0 });
    }
    Ok(count > 0)
}
