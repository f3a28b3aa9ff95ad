//! Patterns of full names.

ghost use Rattle.std.specs.Prelude.{◌≡◌, ◌+◌, ◌==◌, ◌||◌, length, MatchOption, false};
ghost use Rattle.vcd_core.specs.FullName.{name_bytes};
ghost use Rattle.vcd_part.specs.Pattern.{holds_after_some, meets};
ghost use Rattle.vcd_part.specs.inside.Heads.{IsShorter, head_bytes, head_of};

use vcd_core::FullName;

/// What a pattern up to its first `*` says of the beginning of a name.
enum PatternHead<'a> {
    /// The pattern has no `*`, or the name differs before it: whether the name meets the pattern.
    Ended(bool),
    /// What is left of the pattern after its first `*`, and of the name there.
    Star(&'a [u8], FullName<'a>),
}

/// Whether a full name meets a pattern: `*` is any bytes, `?` any one, and another byte itself.
///
/// The time is at most the product of both lengths. It takes no memory.
pub fn meets(pattern: &[u8], name: FullName<'_>) -> bool
    ensures { result ≡ meets pattern.now (name_bytes name.entry) }
{
    match head(pattern, name) {
        PatternHead::Ended(is_met) => is_met,
        PatternHead::Star(pattern, name) => meets_after_star(pattern, name),
    }
}

/// Whether a name meets a `*` with this pattern after it. Each `*` is left as early as possible,
/// since the next one can pass over what that leaves.
fn meets_after_star(pattern: &[u8], name: FullName<'_>) -> bool
    ensures { result ≡ holds_after_some (meets pattern.now) (name_bytes name.entry) }
{
    let mut left = pattern;
    let mut name = name;
    loop {
        match head(left, name) {
            PatternHead::Ended(true) => return true,
            PatternHead::Ended(false) => {
                if name.next_byte().is_none() {
                    return false;
                }
            }
            PatternHead::Star(pattern_left, name_left) => {
                left = pattern_left;
                name = name_left;
            }
        }
    }
}

/// What a pattern up to its first `*` says of a name.
fn head<'a>(pattern: &'a [u8], name: FullName<'a>) -> PatternHead<'a>
    ensures head { head_bytes result ≡ head_of pattern.now (name_bytes name.entry) }
    ensures shorter { IsShorter (head_bytes result)
        (length pattern.now + length (name_bytes name.entry)) }
{
    let mut left = pattern;
    let mut name = name;
    while let Some((wanted, rest)) = left.split_first() {
        if *wanted == b'*' {
            return PatternHead::Star(rest, name);
        }
        if !is_wanted(*wanted, name.next_byte()) {
            return PatternHead::Ended(false);
        }
        left = rest;
    }
    PatternHead::Ended(name.next_byte().is_none())
}

/// Whether there is a byte, and it is the one that a pattern wants.
fn is_wanted(wanted: u8, byte: Option<u8>) -> bool
    ensures { MatchOption byte (result ≡ false) (λ b. result ≡ (wanted == 63 || wanted == b)) }
{
    match byte {
        Some(byte) => wanted == b'?' || wanted == byte,
        None => false,
    }
}
