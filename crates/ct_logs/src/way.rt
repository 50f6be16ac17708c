//! How logs are read and merged.

use ct_streams::Pace;

/// How logs are read and merged.
#[derive(Drop)]
pub enum Way<P: Pace + Drop> {
    /// As they are.
    Once,
    /// They grow: they are read on for as long as the pace says, unless all end with a crash. Where a line is refused by itself they are
    /// refused at once.
    Follow(P),
    /// Their ends may be lost: where they are incomplete, members are taken to have gone on behind their logs, so that they sent what
    /// others received, as it is stated there.
    Presume,
}
