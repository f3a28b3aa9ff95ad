//! Files that are read: what no run of the program shows, as parts, and readers that fail.

mod failing_readers;
mod parts;

/// How many bytes a reader gives at a time.
const PIECES: [usize; 5] = [1, 7, 4095, 4096, 4097];
