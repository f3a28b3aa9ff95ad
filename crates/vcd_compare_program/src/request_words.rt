//! The request that the words of the command line make.

ghost use Rattle.std.specs.Prelude.{◌≡◌, ◌==◌, ◌≤◌, ◌++◌, ◌∷◌, [], not, length, map, option_map};
ghost use Rattle.std.specs.Prelude.{IfOk, IfErr, OnOk};
ghost use Rattle.std.specs.List.{prefix_len};
ghost use Rattle.std.specs.Option.{unwrap_or};
ghost use Rattle.vcd_part.specs.Requests.{texts};
ghost use Rattle.vcd_compare_program.specs.CommandLine.{options_in};
ghost use Rattle.vcd_compare_program.specs.ProgramEnds as spec;
ghost use Rattle.vcd_compare_program.specs.inside.Words.{AreMaps, IsFaultOfMaps};

use crate::command_line::Options;
use crate::compare_fault::{CompareFault, WordFault};
use crate::reporting::ReportRequest;
use std::alloc::Global;
use vcd_compare::{CompareRequest, NameMap};
use vcd_core::NoMemory;
use vcd_part::time_asked;

/// The maps of these words.
pub fn maps_of<'a>(
    alloc: Global,
    words: Option<&[&'a str]>,
) -> Result<Vec<NameMap<'a>>, CompareFault>
    ensures maps { IfOk result (λ maps. AreMaps (unwrap_or (texts words.entry) []) maps.items) }
    ensures fault { IfErr result (IsFaultOfMaps (unwrap_or (texts words.entry) [])) }
{
    match words {
        Some(words) => read_maps(alloc, words),
        None => Ok(Vec::new(alloc)),
    }
}

/// The maps of words that are given.
fn read_maps<'a>(alloc: Global, words: &[&'a str]) -> Result<Vec<NameMap<'a>>, CompareFault>
    ensures maps { IfOk result (λ maps. AreMaps (map (λ w. w.now) words.now) maps.items) }
    ensures fault { IfErr result (IsFaultOfMaps (map (λ w. w.now) words.now)) }
{
    let mut maps = Vec::new(alloc);
    for word in words {
        match map_of(word.as_bytes()) {
            Some(map) => push_map(&mut maps, map)?,
            None => return Err(CompareFault::Words(WordFault::BadMap)),
        }
    }
    Ok(maps)
}

/// Adds a map.
fn push_map<'a>(maps: &mut Vec<NameMap<'a>>, map: NameMap<'a>) -> Result<(), NoMemory>
    ensures { OnOk result (maps.new.items ≡ maps.old.items ++ map.entry ∷ []) }
{
    maps.push(map)?;
    Ok(())
}

/// A map as a word writes it: `OLD=NEW`.
fn map_of(word: &[u8]) -> Option<NameMap<'_>>
    ensures { option_map (λ m. (m.old.now, m.new.now)) result ≡ spec.map_of word.now }
{
    let end = length_before_sign(word);
    map_between(&word[..end], &word[end..])
}

/// How many bytes are before the first equals sign.
fn length_before_sign(word: &[u8]) -> usize
    ensures count { result ≡ prefix_len (λ b. not (b == 61)) word.now }
    ensures within { result ≤ length word.now }
{
    word.iter().take_while(|byte| **byte != b'=').count()
}

/// A map of the text before an equals sign and of what follows, unless a name is empty.
fn map_between<'a>(old: &'a [u8], rest: &'a [u8]) -> Option<NameMap<'a>>
    ensures { option_map (λ m. (m.old.now, m.new.now)) result
        ≡ spec.map_between old.now rest.now }
{
    let (_, new) = rest.split_first()?;
    if old.is_empty() || new.is_empty() {
        return None;
    }
    Some(NameMap { old, new })
}

/// What is asked for, with these maps, if all times are such.
pub fn request_of<'m, 'a>(
    options: &Options<'m, 'a>,
    maps: &'m [NameMap<'a>],
) -> Result<ReportRequest<'m, 'a>, WordFault>
    ensures asked { IfOk result (λ r.
        AreMaps (unwrap_or (options_in options.now).maps []) maps.now →
        spec.IsRequest (options_in options.now) r) }
    ensures fault { IfErr result (spec.IsWordFault (options_in options.now)) }
{
    let tolerance = time_asked(options.within, 0).ok_or(WordFault::BadWithin)?;
    let from = time_asked(options.from, 0).ok_or(WordFault::BadFrom)?;
    let to = time_asked(options.to, u64::MAX).ok_or(WordFault::BadTo)?;
    Ok(ReportRequest {
        compared: CompareRequest {
            keep: options.keep,
            maps,
            tolerance,
            from,
            to,
        },
        first: options.first.unwrap_or("-"),
        second: options.second.unwrap_or("-"),
        is_json: options.is_json,
        is_strict: options.is_strict,
    })
}
