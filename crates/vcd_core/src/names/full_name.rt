//! Full names, compared byte by byte without building them.

ghost use Rattle.std.specs.Prelude.{◌≡◌, ◌∷◌, MatchOption, IfNone, [], map};
ghost use Rattle.std.specs.List.{list_any, position};
ghost use Rattle.std.specs.Str.{bytes_eq};
ghost use Rattle.vcd_core.specs.CaptureContents.{signal_contents};
ghost use Rattle.vcd_core.specs.Names.{name_in, full_name, full_names};

use crate::capture::{ScopeName, Signal, Word};
use crate::names::text_end::TextEnd;

/// A full name: the names of scopes, outermost first, and a name, joined by `.`. Several words of
/// one name are run together.
///
/// It borrows its parts and is never built. Contracts see its bytes. A search looks at the ends
/// first: signals share the beginnings of their names, and most differ in their words.
#[derive(Clone, Copy)]
pub struct FullName<'a> {
    /// The rest of the current word.
    text: &'a [u8],
    /// The words after it, in the same scope or name.
    words: &'a [Word],
    /// Whether the words are a scope's, so that a `.` follows them.
    in_scope: bool,
    /// The scopes that follow.
    scopes: &'a [ScopeName],
    /// The first word of the name after the scopes, and the others.
    first: &'a [u8],
    others: &'a [Word],
}

impl<'a> FullName<'a> {
    ghost use Rattle.std.specs.Prelude.{List, ℕ, ◌++◌};
    ghost use Rattle.vcd_core.specs.FullName.{bytes_after, name_bytes};
    ghost use Rattle.vcd_core.specs.inside.names.TextEnd.{text_end};
    ghost use Rattle.vcd_core.specs.inside.names.FullName.{IsDrained};

    /// The full name in these scopes, outermost first, of a name whose words are `first` and the
    /// others.
    pub fn new(scopes: &'a [ScopeName], first: &'a [u8], others: &'a [Word]) -> FullName<'a>
        ensures { name_bytes result ≡ name_in scopes.now (first.now ∷ others.now) }
    {
        match scopes {
            [scope, inner @ ..] => FullName {
                text: b"".as_slice(),
                words: scope.words.as_slice(),
                in_scope: true,
                scopes: inner,
                first,
                others,
            },
            [] => FullName {
                text: first,
                words: others,
                in_scope: false,
                scopes,
                first,
                others,
            },
        }
    }

    /// The full name in these scopes, outermost first, of a name of these words.
    #[tactic(auto, using(crate::proofs::shared::FullNames::name_steps))]
    pub fn of_words(scopes: &'a [ScopeName], words: &'a [Word]) -> FullName<'a>
        ensures { name_bytes result ≡ name_in scopes.now words.now }
    {
        FullName::new(scopes, b"".as_slice(), words)
    }

    /// The full name of a signal.
    pub fn of(signal: &'a Signal) -> FullName<'a>
        ensures { name_bytes result ≡ full_name (signal_contents signal.now) }
    {
        FullName::of_words(signal.scopes.as_slice(), signal.words.as_slice())
    }

    /// A text as a full name.
    pub fn of_text(text: &'a [u8]) -> FullName<'a>
        ensures { name_bytes result ≡ text.now }
    {
        FullName::new(&[], text, &[])
    }

    /// Whether one of the signals has this full name.
    pub fn is_taken(&self, signals: &[Signal]) -> bool
        ensures { result ≡ list_any (bytes_eq (name_bytes self.now))
            (full_names (map signal_contents signals.now)) }
    {
        let end = self.end();
        signals.iter().any(|signal| self.is_name_of(signal, &end))
    }

    /// The position of the first of the signals with this full name.
    pub fn position_in(&self, signals: &[Signal]) -> Option<usize>
        ensures { result ≡ position (λ s. bytes_eq (name_bytes self.now)
            (full_name (signal_contents s))) signals.now }
    {
        let end = self.end();
        signals
            .iter()
            .position(|signal| self.is_name_of(signal, &end))
    }

    /// Whether this is the full name of a signal, given its end, which is lent: a copy for each
    /// signal would have each look wait for the one before it.
    #[inline(always)]
    fn is_name_of(&self, signal: &Signal, end: &TextEnd) -> bool
        ensures { end.now ≡ text_end (name_bytes self.now) →
            result ≡ bytes_eq (name_bytes self.now) (full_name (signal_contents signal.now)) }
    {
        end.may_end_with(signal.words.end()) && self.has_same_bytes(FullName::of(signal))
    }

    pub(crate) fn end(self) -> TextEnd
        ensures { result ≡ text_end (name_bytes self.entry) }
    {
        let mut name = self;
        let mut end = TextEnd::new();
        while let Some(byte) = name.next_byte() {
            end = end.with_byte(byte);
        }
        end
    }

    /// Whether both have the same bytes.
    pub fn has_same_bytes(self, other: FullName) -> bool
        ensures { result ≡ bytes_eq (name_bytes self.entry) (name_bytes other.entry) }
    {
        let mut mine = self;
        let mut others = other;
        while let Some(byte) = mine.next_byte() {
            if others.next_byte() != Some(byte) {
                return false;
            }
        }
        others.next_byte().is_none()
    }

    /// Takes the next byte of the name, if there is one.
    pub fn next_byte(&mut self) -> Option<u8>
        ensures next { MatchOption result (name_bytes self.old ≡ [])
            (λ byte. name_bytes self.old ≡ byte ∷ name_bytes self.new) }
        ensures ended { IfNone result (name_bytes self.new ≡ []) }
    {
        self.go_to_text();
        match self.text {
            [byte, rest @ ..] => {
                self.text = rest;
                Some(*byte)
            }
            [] => self.leave_scope(),
        }
    }

    /// Moves to the next word that is not empty, in the current scope or name.
    fn go_to_text(&mut self)
        ensures same { name_bytes self.new ≡ name_bytes self.old }
        ensures text { self.new.text.now ≡ [] → self.new.words.now ≡ [] }
    {
        while self.text.is_empty() {
            match self.words {
                [word, rest @ ..] => {
                    self.text = word.as_slice();
                    self.words = rest;
                }
                [] => return,
            }
        }
    }

    /// Takes the `.` after a scope of which no byte is left.
    fn leave_scope(&mut self) -> Option<u8>
        requires { IsDrained self.old }
        ensures next { MatchOption result (name_bytes self.old ≡ [])
            (λ byte. name_bytes self.old ≡ byte ∷ name_bytes self.new) }
        ensures ended { IfNone result (name_bytes self.new ≡ []) }
    {
        if !self.in_scope {
            return None;
        }
        match self.scopes {
            [scope, inner @ ..] => {
                self.words = scope.words.as_slice();
                self.scopes = inner;
            }
            [] => {
                self.in_scope = false;
                self.text = self.first;
                self.words = self.others;
            }
        }
        Some(b'.')
    }
}
