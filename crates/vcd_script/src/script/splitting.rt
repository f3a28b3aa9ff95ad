//! The lines of a script.

ghost use Rattle.std.specs.Prelude.{◌≡◌, ◌≤◌, ◌<◌, ◌==◌, ◌∷◌, [], true, not, length, take, drop};
ghost use Rattle.std.specs.Prelude.{MatchOption};
ghost use Rattle.std.specs.List.{list_all};
ghost use Rattle.vcd_script.specs.Script.{script_lines};
ghost use Rattle.vcd_script.specs.inside.script.Splitting.{is_after_line};

/// The first line of a script, without its line feed, and what follows it. An empty script has
/// none.
pub fn split_line(script: &[u8]) -> Option<(&[u8], &[u8])>
    ensures { MatchOption result (script.now ≡ []) (λ parts.
        (script_lines script.now ≡ parts.0.now ∷ script_lines parts.1.now) ×
        (length parts.1.now < length script.now)) }
{
    if script.is_empty() {
        return None;
    }
    let (line, following) = script.split_at(line_len(script));
    match following.split_first() {
        Some((_, rest)) => Some((line, rest)),
        None => Some((line, following)),
    }
}

/// How many bytes come before the first line feed, or in all if there is none.
fn line_len(script: &[u8]) -> usize
    ensures within { result ≤ length script.now }
    ensures line { list_all (λ b. not (b == 10)) (take result script.now) ≡ true }
    ensures ends { is_after_line (drop result script.now) ≡ true }
{
    for (i, byte) in script.iter().enumerate() {
        if *byte == b'\n' {
            return i;
        }
    }
    script.len()
}
