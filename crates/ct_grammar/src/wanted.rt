//! What could stand at a place of a line.

/// What could stand at a place of a line.
#[derive(Clone, Copy)]
pub(crate) enum Wanted {
    /// The word that begins a line.
    Beginning,
    /// How many members there are.
    GroupSize,
    /// How many cells there are.
    CellCount,
    /// The bound on a proposal.
    Bound,
    /// A member.
    Member,
    /// A list of members.
    Set,
    /// The members of a side of a cut.
    Side,
    /// What stands between two sides.
    Bar,
    /// What members do.
    Doing,
    /// An act that is asked about.
    Act,
    /// A command.
    Command,
    /// A register.
    Register,
    /// A value or an amount.
    Amount,
    /// An envelope.
    Envelope,
    /// An envelope that is lost, or `from`.
    Loss,
    /// A serial behind `#`.
    Serial,
    /// A message, by its origin and its number.
    Message,
    /// An instance and a round.
    Place,
    /// How many rounds of turns, or until when.
    Rounds,
    /// The word `until`.
    Until,
    /// A fact.
    Fact,
    /// A phase.
    Phase,
    /// The name of a reason.
    Reason,
    /// An instance.
    Instance,
    /// A round.
    Round,
    /// How many envelopes wait.
    Waiting,
    /// Which members, or `-`.
    Members,
    /// Messages, or `-`.
    Messages,
    /// Decisions of rising instances, or `-`.
    Decisions,
    /// Registers with their values, or `-`.
    Registers,
    /// An estimate, or `-`.
    Estimate,
    /// The word `ts`.
    Ts,
    /// When a claim holds, or of whom.
    Term,
    /// Of whom a claim has to hold.
    Whom,
    /// How much there is, or `>=`.
    Extent,
    /// A number behind `>=`.
    Count,
    /// The member that is chosen, or the reason for which each choice is refused.
    Chosen,
    /// The word `up`.
    Up,
    /// The word `unseen`.
    Unseen,
    /// The word `again`.
    Again,
    /// Nothing.
    Nothing,
    /// Nothing, or `suspecting`.
    Suspecting,
    /// Nothing, or `from`.
    Sender,
    /// Nothing, or a command.
    Statement,
    /// Nothing, `from` or a command.
    SenderOrStatement,
    /// Nothing, or `and`.
    And,
    /// Nothing, `from` or `and`.
    SenderOrAnd,
    /// Nothing, or `and`, where an `or` stands.
    Or,
}
