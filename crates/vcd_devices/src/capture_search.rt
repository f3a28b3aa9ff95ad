//! What is looked for in the bytes of a capture as they are read: the mark of an earlier run, and
//! whether the last line has a line feed.

use std::io::Eprint;
use vcd_core::is_white_space;

/// More bytes than any word has that is looked for.
const WORD_BYTES: usize = 16;

/// How far a search is. A mark is a comment of the declarations, or was one right after them, and
/// is not looked for later.
#[derive(Clone, Copy)]
pub struct CaptureSearch {
    place: Place,
    // the first bytes of a word that has begun, and how many bytes it has
    word: [u8; WORD_BYTES],
    len: usize,
    has_mark: bool,
    // the byte that came last, if one has come
    last: Option<u8>,
}

/// What the words so far end with.
#[derive(Clone, Copy)]
enum Place {
    /// Whole declarations.
    Declarations,
    /// `$comment` of the declarations.
    Comment,
    /// More words of a declaration, or of a comment.
    Within,
    /// Words of a mark in the declarations.
    Mark,
    /// `$enddefinitions`.
    LastDeclaration,
    /// All declarations.
    Body,
    /// `$comment` right after the declarations.
    FirstComment,
    /// More than that.
    Over,
}

/// Tells that a mark of an earlier run was found, which stays in the output.
pub fn tell_earlier_mark<R: Eprint>(rt: &R) {
    let _ = eprintln!(rt;
        "output: the mark of an earlier run stays, and tells nothing of this one"
    );
}

/// Tells that the last line of a capture has no line feed, as in a file that was cut off.
pub fn tell_unended_line<R: Eprint>(rt: &R) {
    let _ = eprintln!(rt; "capture: the last line has no line feed, so the file may be cut short");
}

impl CaptureSearch {
    /// Before the first byte.
    pub fn new() -> CaptureSearch {
        CaptureSearch {
            place: Place::Declarations,
            word: [0; WORD_BYTES],
            len: 0,
            has_mark: false,
            last: None,
        }
    }

    /// Whether a mark has come.
    pub fn has_found_mark(&self) -> bool {
        self.has_mark
    }

    /// Whether the first word of a mark in the declarations has come, and not its last one.
    pub fn is_within_mark(&self) -> bool {
        match self.place {
            Place::Mark => true,
            _ => false,
        }
    }

    /// Whether no mark can come any more.
    pub fn is_over(&self) -> bool {
        match self.place {
            Place::Over => true,
            _ => false,
        }
    }

    /// Whether bytes have come, and the last one is no line feed.
    pub fn ends_within_line(&self) -> bool {
        matches!(self.last, Some(byte) if byte != b'\n')
    }

    /// Goes on with further bytes.
    pub fn go_on(&mut self, bytes: &[u8]) {
        if let Some(byte) = bytes.last() {
            self.last = Some(*byte);
        }
        for byte in bytes {
            if matches!(self.place, Place::Over) {
                return;
            }
            self.take(*byte);
        }
    }

    /// Takes one byte more.
    pub fn take(&mut self, byte: u8) {
        if is_white_space(byte) {
            self.end_word();
            return;
        }
        if let Some(place) = self.word.get_mut(self.len) {
            *place = byte;
        }
        self.len = self.len.saturating_add(1);
    }

    /// Ends a word, if one has begun.
    fn end_word(&mut self) {
        if self.len == 0 {
            return;
        }
        let word = self.word.get(..self.len).unwrap_or(b"");
        if self.place.is_comment() && is_title(word) {
            self.has_mark = true;
        }
        self.place = next_place(self.place, word);
        self.len = 0;
    }
}

impl Place {
    /// Whether the next word is the first one of a comment that may be a mark.
    fn is_comment(self) -> bool {
        matches!(self, Place::Comment | Place::FirstComment)
    }
}

/// What the words end with after one more.
fn next_place(place: Place, word: &[u8]) -> Place {
    let ends = word == b"$end".as_slice();
    match place {
        Place::Declarations => begun_declaration(word),
        Place::Comment | Place::Within | Place::Mark if ends => Place::Declarations,
        Place::Comment if is_title(word) => Place::Mark,
        Place::Comment | Place::Within => Place::Within,
        Place::Mark => Place::Mark,
        Place::LastDeclaration if ends => Place::Body,
        Place::Body if word == b"$comment".as_slice() => Place::FirstComment,
        Place::LastDeclaration | Place::Body | Place::FirstComment | Place::Over => Place::Over,
    }
}

/// Whether this is the first word of a mark.
fn is_title(word: &[u8]) -> bool {
    word == b"vcdedit-amend".as_slice()
}

/// What words end with of which this one begins a declaration.
fn begun_declaration(word: &[u8]) -> Place {
    if word == b"$comment".as_slice() {
        return Place::Comment;
    }
    if word == b"$enddefinitions".as_slice() {
        return Place::LastDeclaration;
    }
    Place::Within
}
