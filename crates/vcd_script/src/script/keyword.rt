//! The keyword of a line: its first word, which names the command.

ghost use Rattle.std.specs.Prelude.{◌≡◌};
ghost use Rattle.vcd_script.specs.ScriptCommands.{keyword_of};

/// The command that the first word of a line names.
#[derive(Clone, Copy)]
pub enum Keyword {
    Rename,
    Remove,
    Invert,
    Shift,
    Cut,
    Deglitch,
    Force,
    Derive,
    Undo,
    Redo,
    Depth,
    List,
    Value,
    Changes,
    Uart,
    Spi,
    I2c,
}

/// The name of each command. The first eight are edits.
pub const KEYWORDS: [(&str, Keyword); 17] = [
    ("rename", Keyword::Rename),
    ("remove", Keyword::Remove),
    ("invert", Keyword::Invert),
    ("shift", Keyword::Shift),
    ("cut", Keyword::Cut),
    ("deglitch", Keyword::Deglitch),
    ("force", Keyword::Force),
    ("derive", Keyword::Derive),
    ("undo", Keyword::Undo),
    ("redo", Keyword::Redo),
    ("depth", Keyword::Depth),
    ("list", Keyword::List),
    ("value", Keyword::Value),
    ("changes", Keyword::Changes),
    ("uart", Keyword::Uart),
    ("spi", Keyword::Spi),
    ("i2c", Keyword::I2c),
];

/// The command that a word names.
pub fn keyword_of(word: &[u8]) -> Option<Keyword>
    ensures { result ≡ keyword_of word.now }
{
    match KEYWORDS.iter().find(|row| word == row.0.as_bytes()) {
        Some(row) => Some(row.1),
        None => None,
    }
}
