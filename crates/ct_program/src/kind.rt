//! Kinds of entries of scripts.

// What the entries of a script do.
#[derive(Clone, Copy)]
pub(crate) enum Kind {
    Submission,
    Postponement,
    Loss,
    Repetition,
}
