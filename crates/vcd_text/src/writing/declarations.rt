//! The declarations of a capture: header, timescale, scopes and variables (IEEE 1364-2005, 18.2).

ghost use Rattle.std.specs.Prelude.{◌≡◌, ◌<◌, ◌≤◌, [], ◌∷◌, length, map, replicate};
ghost use Rattle.std.specs.List.{common_prefix_len, flat_map, join_with_byte};
ghost use Rattle.std.specs.Cmp.Lexicographic.{pointwise};
ghost use Rattle.std.specs.Str.{bytes_eq};
ghost use Rattle.vcd_core.specs.CaptureContents.{contents, signal_contents};
ghost use Rattle.vcd_core.specs.declared.capture.TheConstants.{SIGNAL_LIMIT};
ghost use Rattle.vcd_text.specs.Items.{entry, header_word, scope, upscope, variable, spelling};
ghost use Rattle.vcd_text.specs.Text.{item_line, same_scope, scope_items};
ghost use Rattle.vcd_text.specs.inside.writing.Declarations.{header_items};
ghost use Rattle.vcd_text.specs.Text.{signal_items, timescale_items, variable_item};
ghost use Rattle.vcd_text.specs.inside.writing.Declarations.{declarations_text};
ghost use Rattle.vcd_text.specs.EmittedText.{Emits};

use super::codes::write_code;
use super::lines::{write_end, write_word, write_words};
use super::output::{Output, write_byte, write_bytes};
use itoa::Buffer;
use vcd_core::{Capture, Header, HeaderKind, ScopeName, Signal, Sink, Timescale, Word};

/// Writes the declarations: the header and the timescale first, and the end of the declarations
/// last.
pub fn write_declarations<W: Sink>(output: &mut Output<W>, capture: &Capture)
    requires { length capture.now.signals ≤ SIGNAL_LIMIT }
    ensures { Emits W.Sink output.old output.new (declarations_text (contents capture.now)) }
{
    write_header(output, capture.header());
    write_timescale(output, capture.timescale());
    write_signals(output, capture.signals());
    write_bytes(output, b"$enddefinitions $end\n");
}

/// Writes a line for each header entry.
fn write_header<W: Sink>(output: &mut Output<W>, header: &[Header])
    ensures { Emits W.Sink output.old output.new (flat_map item_line (header_items header.now)) }
{
    for one in header {
        write_entry(output, one);
    }
}

/// Writes the line of a header entry.
fn write_entry<W: Sink>(output: &mut Output<W>, header: &Header)
    ensures { Emits W.Sink output.old output.new
        (item_line (entry header.now.kind header.now.words)) }
{
    write_bytes(output, header_keyword(header.kind).as_bytes());
    write_bytes(output, header.words.text());
    write_end(output);
}

/// The keyword of a header entry.
fn header_keyword(kind: HeaderKind) -> &'static str
    ensures { result.now ≡ header_word kind }
{
    match kind {
        HeaderKind::Date => "$date",
        HeaderKind::Version => "$version",
        HeaderKind::Comment => "$comment",
    }
}

/// Writes the line of the timescale, if there is one.
fn write_timescale<W: Sink>(output: &mut Output<W>, timescale: Option<Timescale>)
    ensures { Emits W.Sink output.old output.new (flat_map item_line (timescale_items timescale)) }
{
    if let Some(timescale) = timescale {
        write_bytes(output, b"$timescale");
        write_word(output, Buffer::new().format(timescale.count).as_bytes());
        write_word(output, timescale.unit.symbol().as_bytes());
        write_end(output);
    }
}

/// Writes the declarations of all signals, and opens and closes scopes between them. The time grows
/// with the scopes of all signals. Shared scopes count for each signal.
fn write_signals<W: Sink>(output: &mut Output<W>, signals: &[Signal])
    requires { length signals.now ≤ SIGNAL_LIMIT }
    ensures { Emits W.Sink output.old output.new
        (flat_map item_line (signal_items [] 0 (map signal_contents signals.now))) }
{
    let mut opened: &[ScopeName] = &[];
    for (position, signal) in signals.iter().enumerate() {
        let path = signal.scopes.as_slice();
        write_scope_changes(output, opened, path);
        write_variable(output, position, signal);
        opened = path;
    }
    write_upscopes(output, opened.len());
}

/// Writes the declaration of the signal at `position`.
fn write_variable<W: Sink>(output: &mut Output<W>, position: usize, signal: &Signal)
    requires { position < SIGNAL_LIMIT }
    ensures { Emits W.Sink output.old output.new
        (item_line (variable_item position (signal_contents signal.now))) }
{
    write_bytes(output, b"$var");
    write_word(output, signal.kind.as_slice());
    write_word(output, Buffer::new().format(signal.wave.width()).as_bytes());
    write_byte(output, b' ');
    write_code(output, position);
    write_words(output, signal.words.as_slice());
    write_end(output);
}

/// Writes a `$var` of these words, without a line feed.
pub fn write_declaration<W: Sink>(
    output: &mut Output<W>,
    kind: &[u8],
    size: &[u8],
    code: &[u8],
    words: &[Word],
)
    ensures { Emits W.Sink output.old output.new
        (join_with_byte 32 (spelling (variable (kind.now ∷ size.now ∷ code.now ∷ words.now)))) }
{
    write_bytes(output, b"$var");
    write_word(output, kind);
    write_word(output, size);
    write_word(output, code);
    write_words(output, words);
    write_bytes(output, b" $end");
}

/// Closes the open scopes that the path does not share, and opens the other scopes of the path.
fn write_scope_changes<W: Sink>(output: &mut Output<W>, opened: &[ScopeName], path: &[ScopeName])
    ensures { Emits W.Sink output.old output.new
        (flat_map item_line (scope_items opened.now path.now)) }
{
    let shared = shared_len(opened, path);
    write_upscopes(output, opened.len() - shared);
    write_scopes(output, &path[shared..]);
}

/// Writes the lines that close `count` scopes.
pub fn write_upscopes<W: Sink>(output: &mut Output<W>, count: usize)
    ensures { Emits W.Sink output.old output.new (flat_map item_line (replicate count upscope)) }
{
    for _closed in 0..count {
        write_bytes(output, b"$upscope $end\n");
    }
}

/// Writes the lines that open scopes, the outermost first.
pub fn write_scopes<W: Sink>(output: &mut Output<W>, scopes: &[ScopeName])
    ensures { Emits W.Sink output.old output.new
        (flat_map item_line (map (λ s. scope s.kind s.words) scopes.now)) }
{
    for name in scopes {
        write_scope(output, name);
    }
}

/// Opens a scope.
fn write_scope<W: Sink>(output: &mut Output<W>, name: &ScopeName)
    ensures { Emits W.Sink output.old output.new (item_line (scope name.now.kind name.now.words)) }
{
    write_bytes(output, b"$scope");
    write_word(output, name.kind.as_slice());
    write_words(output, name.words.as_slice());
    write_end(output);
}

/// The number of scopes that two paths share at the front. The time grows with their words.
#[tactic(auto, using(crate::proofs::shared::ScopePaths::none_shared))]
fn shared_len(opened: &[ScopeName], path: &[ScopeName]) -> usize
    ensures shared { result ≡ common_prefix_len same_scope opened.now path.now }
    ensures in_opened { result ≤ length opened.now }
    ensures in_path { result ≤ length path.now }
{
    // Prefixes of one list are compared by name as well: `ptr_eq` has no clause on the contents of
    // two lists.
    let most = opened.len().min(path.len());
    for k in 0..most {
        if !is_same_scope(&opened[k], &path[k]) {
            return k;
        }
    }
    most
}

/// Whether two scopes have the same kind and the same words.
fn is_same_scope(a: &ScopeName, b: &ScopeName) -> bool
    ensures { result ≡ same_scope a.now b.now }
{
    a.kind.as_slice() == b.kind.as_slice() && are_same_words(a.words.as_slice(), b.words.as_slice())
}

/// Whether two lists have the same words.
pub fn are_same_words(a: &[Word], b: &[Word]) -> bool
    ensures { result ≡ pointwise bytes_eq a.now b.now }
{
    if a.len() != b.len() {
        return false;
    }
    for (k, word) in a.iter().enumerate() {
        if word.as_slice() != b[k].as_slice() {
            return false;
        }
    }
    true
}
