//! A script: its lines, and what each of them asks for.

mod command;
mod decoder_words;
mod decoders;
mod derivations;
mod edits;
mod keyword;
mod line;
mod line_error;
mod line_words;
mod numbers;
mod queries;
mod splitting;

pub use command::Command;
pub use decoders::SpiLines;
pub use keyword::Keyword;
pub use line::parse_line;
pub use line_error::LineError;
pub use splitting::split_line;

/// What a line of a script asks for, or why it is no command.
type Parsed<'a> = Result<Command<'a>, LineError>;
