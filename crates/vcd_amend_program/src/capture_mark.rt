//! What a mark says of the capture: its name, its size and its SHA-256.

ghost use Rattle.std.specs.Prelude.{◌≡◌, ◌⊎◌, ◌++◌, false, ℕ, List, map, string_bytes};
ghost use Rattle.std.specs.Prelude.{IfOk, IfErr, IfSome, OnOk};
ghost use Rattle.hex.specs.Hex.{encode_lower};
ghost use Rattle.sha2.specs.Sha256.{sha256};
ghost use Rattle.vcd_amend_program.specs.ProgramEnds.{not_read, no_memory};
ghost use Rattle.vcd_amend_program.specs.CommandLine.{options_in};
ghost use Rattle.vcd_amend_program.specs.Marks as spec;

use crate::amend_error::{AmendError, NO_MEMORY, NOT_READ};
use crate::command_line::{Options, VERSION};
use sha2::{Digest, Sha256};
use std::alloc::{AllocError, Global};
use std::rt::Runtime;
use vcd_copy::MarkHead;
use vcd_core::{Seq, Source, Word};
use vcd_devices::{ProgressLine, open_pass};
use vcd_replace::SeenFile;

/// How many bytes of a capture are read at once.
const CHUNK: usize = 65_536;

/// The size of a capture, and its SHA-256 in hexadecimal digits.
#[derive(Drop)]
pub struct CaptureDigest {
    pub size: u64,
    pub digest: String,
}

/// Reads a capture once, before all passes over it.
pub fn digest_of<R: Runtime + AllocGlobal>(
    rt: &R,
    capture: SeenFile<'_>,
) -> Result<CaptureDigest, AmendError>
    ensures { IfErr result (λ e. (e ≡ not_read) ⊎ (e ≡ no_memory)) }
{
    let mut source = open_pass(rt, capture, ProgressLine::none()).map_err(|_| NOT_READ)?;
    read_digest(rt.alloc(), &mut source)
}

/// The size and the SHA-256 of what a source gives. A `u64` counts bytes up to its limit.
fn read_digest<S: Source>(alloc: Global, source: &mut S) -> Result<CaptureDigest, AmendError>
    requires { S.has_failed source.old ≡ false }
    ensures read { IfOk result (λ d. IfSome (S.coming source.old) (spec.IsDigestOf d)) }
    ensures fault { IfErr result (λ e. (e ≡ not_read) ⊎ (e ≡ no_memory)) }
{
    let mut buffer = [0; CHUNK];
    let mut hasher = Sha256::new();
    let mut size = 0u64;
    for _ in 0..u64::MAX {
        let count = source.read(&mut buffer).map_err(|_| NOT_READ)?;
        if count == 0 {
            return ended(alloc, hasher, size);
        }
        hasher.update(&buffer[..count]);
        size = size.saturating_add(count as u64);
    }
    Err(NOT_READ)
}

/// The digest of the bytes that were read.
fn ended(alloc: Global, hasher: Sha256, size: u64) -> Result<CaptureDigest, AmendError>
    ensures read { IfOk result (λ d. (file : List ℕ) → ⟦<Sha256 as Digest>⟧.holds hasher file →
        (d.size ≡ size) × (string_bytes d.digest ≡ encode_lower (sha256 file))) }
    ensures fault { IfErr result (λ e. e ≡ no_memory) }
{
    match hex::encode(alloc, hasher.finalize()) {
        Ok(digest) => Ok(CaptureDigest { size, digest }),
        Err(_) => Err(NO_MEMORY),
    }
}

/// The head of the mark for a capture of this size and this SHA-256, of which such a part is taken.
pub fn head_of<'a>(path: &'a str, size: u64, digest: &'a str, part: &'a [Word]) -> MarkHead<'a>
    ensures version { result.version.now ≡ VERSION.now }
    ensures size { result.size ≡ size }
    ensures digest { result.digest.now ≡ digest.now }
    ensures part { result.part.now ≡ part.now }
{
    MarkHead {
        version: VERSION.as_bytes(),
        name: file_name(path).as_bytes(),
        size,
        digest: digest.as_bytes(),
        part,
    }
}

/// The lines of a mark that say which part the options ask for.
pub fn part_lines(alloc: Global, options: &Options<'_, '_>) -> Result<Vec<Word>, AmendError>
    ensures lines { IfOk result (λ lines. lines.items ≡ spec.part_lines (options_in options.now)) }
    ensures fault { IfErr result (λ e. e ≡ no_memory) }
{
    let mut lines = Vec::new(alloc);
    push_lines(alloc, &mut lines, b"keep ", options.keep.unwrap_or(&[]))?;
    push_lines(alloc, &mut lines, b"remove ", options.remove.unwrap_or(&[]))?;
    push_lines(alloc, &mut lines, b"from ", options.from.as_slice())?;
    push_lines(alloc, &mut lines, b"to ", options.to.as_slice())?;
    Ok(lines)
}

/// Appends a line for each value of an option.
fn push_lines(
    alloc: Global,
    lines: &mut Vec<Word>,
    option: &[u8],
    values: &[&str],
) -> Result<(), AmendError>
    ensures lines { OnOk result (lines.new.items ≡ lines.old.items
        ++ spec.option_lines option.now (map (λ value. value.now) values.now)) }
    ensures fault { IfErr result (λ e. e ≡ no_memory) }
{
    for value in values {
        let line = line_of(alloc, option, value.as_bytes()).map_err(|_| NO_MEMORY)?;
        lines.push(line).map_err(|_| NO_MEMORY)?;
    }
    Ok(())
}

/// A line of an option and its value.
fn line_of(alloc: Global, option: &[u8], value: &[u8]) -> Result<Word, AllocError>
    ensures { IfOk result (λ line. line ≡ option.now ++ value.now) }
{
    let mut line = Vec::new(alloc);
    line.extend_from_slice(option)?;
    line.extend_from_slice(value)?;
    Ok(Seq::from_vec(line))
}

/// The last part of a path.
fn file_name(path: &str) -> &str {
    match path.rsplit_once('/') {
        Some((_, name)) => name,
        None => path,
    }
}
