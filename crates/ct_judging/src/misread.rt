//! Bytes that are no line.

use ct_grammar::Misfit;

/// Why bytes are no line.
#[derive(Drop)]
pub enum Misread {
    /// They are no UTF-8.
    NoText,
    /// They begin a record.
    Record,
    /// They are more than a line may have.
    TooLong,
    /// The grammar has no such line.
    NoLine(Misfit),
}
