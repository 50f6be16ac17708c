//! Lines that stand in no log.

use std::fmt;

/// Why a line stands in no log. Its text says what would be right.
#[derive(Clone, Copy, Debug, Drop, PartialEq, Eq)]
pub enum NoLine {
    /// It begins with no word of a log.
    Unknown,
    /// The word of its message or its state is none.
    Word,
    /// Its number is none.
    Number,
    /// Something stands behind a word that is the whole line.
    More,
    /// It begins with a brace, and is no object of JSON with one of the keys.
    Json,
    /// The log is whole before it.
    Whole,
    /// Its process crashed, and did not restart.
    Crashed,
    /// It has too many bytes.
    Long,
    /// Its process delivered too much.
    Full,
    /// Its log has too many lines before it.
    Many,
}

impl fmt::Display for NoLine {
    fn fmt<W: fmt::Write>(&self, f: &mut fmt::Formatter<W>) -> fmt::Result {
        f.write_str(match self {
            NoLine::Unknown =>
                "broadcast ID, deliver ID, state WORD, from N, restart N, crash or end",
            NoLine::Word => "a word of 1 to 64 bytes, without blanks and control bytes",
            NoLine::Number => "a number of deliveries, 0 to 4294967295",
            NoLine::More => "nothing stands behind crash and end",
            NoLine::Json =>
                "an object with one of broadcast, deliver, state, from, restart, crash and end",
            NoLine::Whole => "nothing stands behind end",
            NoLine::Crashed => "restart N or end stands behind crash",
            NoLine::Long => "a line of at most 65536 bytes",
            NoLine::Full => "at most 4294967295 deliveries of a process",
            NoLine::Many => "at most 10000000 lines of a log",
        })
    }
}
