//! The words for what could stand at a place of a line.

ghost use Rattle.std.specs.Prelude.{◌≡◌, map};
ghost use Rattle.ct_grammar.specs.Places.{beginnings, doings, acts, facts, reasons, told_at};

use crate::wanted::Wanted;

// The words that begin lines.
#[tactic(auto, unfolding(crate::specs::Places::beginnings))]
fn beginnings() -> &'static [&'static str]
    ensures { map (λ name. name.now) result.now ≡ beginnings }
{
    &[
        "members", "cells", "batch", "crash", "cut", "heal", "expect", "enabled", "next", "state",
        "waiting", "report", "record", "limits", "all",
    ]
}

// What members do, by name.
#[tactic(auto, unfolding(crate::specs::Places::doings))]
fn doings() -> &'static [&'static str]
    ensures { map (λ name. name.now) result.now ≡ doings }
{
    &[
        "submit", "receive", "begin", "enter", "choose", "adopt", "suspect", "conclude", "deliver",
        "follow", "crash", "postpone", "lose", "repeat", "turns", "settle",
    ]
}

// The acts, by name.
#[tactic(auto, unfolding(crate::specs::Places::acts))]
fn acts() -> &'static [&'static str]
    ensures { map (λ name. name.now) result.now ≡ acts }
{
    &[
        "submit", "receive", "begin", "enter", "choose", "adopt", "suspect", "conclude", "deliver",
        "follow", "crash", "postpone", "lose", "repeat",
    ]
}

// The facts, by name, and the words that begin what only goals claim.
#[tactic(auto, unfolding(crate::specs::Places::facts))]
fn facts() -> &'static [&'static str]
    ensures { map (λ name. name.now) result.now ≡ facts }
{
    &[
        "up",
        "crashed",
        "idle",
        "instance",
        "round",
        "phase",
        "received",
        "decided",
        "delivered",
        "table",
        "estimate",
        "heard",
        "acked",
        "refuses",
        "may",
        "waiting",
        "waits",
        "suspects",
        "follows",
        "chooses",
        "concludes",
        "settled",
        "stuck",
    ]
}

// The reasons, by name.
#[tactic(auto, unfolding(crate::specs::Places::reasons))]
fn reasons() -> &'static [&'static str]
    ensures { map (λ name. name.now) result.now ≡ reasons }
{
    &[
        "NotThere",
        "Across",
        "NoSuchMember",
        "Crashed",
        "NotWaiting",
        "Busy",
        "Nothing",
        "Idle",
        "WrongPhase",
        "Decided",
        "TooFew",
        "NotLargest",
        "NoProposal",
        "HasProposal",
        "Undecided",
        "BadCommand",
        "NotSent",
        "StillWaiting",
        "Full(Submissions)",
        "Full(Instances)",
        "Full(Rounds)",
        "Full(Envelopes)",
        "Full(Cells)",
        "Full(Steps)",
    ]
}

/// The names that could stand there; none where what is wanted has no name.
#[tactic(auto, unfolding(crate::specs::Places::told_at))]
pub(crate) fn names(wanted: Wanted) -> &'static [&'static str]
    ensures { map (λ name. name.now) result.now ≡ (told_at wanted).names }
{
    match wanted {
        Wanted::Beginning => beginnings(),
        Wanted::Doing => doings(),
        Wanted::Act => acts(),
        Wanted::Command | Wanted::Statement => &["set", "add", "copy"],
        Wanted::Envelope => &["data", "est", "prop", "ack", "nack", "dec", "#SERIAL"],
        Wanted::Loss => &[
            "from", "data", "est", "prop", "ack", "nack", "dec", "#SERIAL",
        ],
        Wanted::Rounds => &["suspecting", "until"],
        Wanted::Fact => facts(),
        Wanted::Phase => &["Rest", "Gather", "Wait", "Tally"],
        Wanted::Reason | Wanted::Chosen => reasons(),
        Wanted::Instance | Wanted::Round | Wanted::Waiting | Wanted::Extent => &[">="],
        Wanted::Term => &["never", "ever", "all", "any", "up"],
        Wanted::Whom => &["all", "any", "up"],
        Wanted::Suspecting => &["suspecting"],
        Wanted::Sender => &["from"],
        Wanted::SenderOrStatement => &["from", "set", "add", "copy"],
        Wanted::And => &["and"],
        Wanted::SenderOrAnd => &["from", "and"],
        Wanted::GroupSize
        | Wanted::CellCount
        | Wanted::Bound
        | Wanted::Member
        | Wanted::Set
        | Wanted::Side
        | Wanted::Bar
        | Wanted::Register
        | Wanted::Amount
        | Wanted::Serial
        | Wanted::Message
        | Wanted::Place
        | Wanted::Until
        | Wanted::Members
        | Wanted::Messages
        | Wanted::Decisions
        | Wanted::Registers
        | Wanted::Estimate
        | Wanted::Ts
        | Wanted::Count
        | Wanted::Up
        | Wanted::Unseen
        | Wanted::Again
        | Wanted::Nothing
        | Wanted::Or => &[],
    }
}

/// Whether the names are told where none is near.
#[tactic(auto, unfolding(crate::specs::Places::told_at))]
pub(crate) fn is_listed(wanted: Wanted) -> bool
    ensures { result ≡ (told_at wanted).is_listed }
{
    matches!(
        wanted,
        Wanted::Beginning
            | Wanted::Doing
            | Wanted::Act
            | Wanted::Command
            | Wanted::Envelope
            | Wanted::Loss
            | Wanted::Rounds
            | Wanted::Fact
            | Wanted::Phase
            | Wanted::Reason
            | Wanted::Chosen
    )
}

/// What is said of another word that stands there.
#[tactic(auto, unfolding(crate::specs::Places::told_at))]
pub(crate) fn denied(wanted: Wanted) -> &'static str
    ensures { result.now ≡ (told_at wanted).denied }
{
    match wanted {
        Wanted::Beginning => "is neither a member nor a word that begins a line",
        Wanted::GroupSize => "is no number from 1 to 16",
        Wanted::CellCount => "is no number from 0 to 1024",
        Wanted::Bound => "is no number from 1 to 1048560",
        Wanted::Member => "is no member",
        Wanted::Set => "is no list of members",
        Wanted::Side => "is no list of members that are named once",
        Wanted::Bar => "is not |",
        Wanted::Doing | Wanted::Act => "is no act",
        Wanted::Command => "is no command",
        Wanted::Register => "is no register",
        Wanted::Amount => "is no value",
        Wanted::Envelope | Wanted::Loss => "is no envelope",
        Wanted::Serial => "is no serial",
        Wanted::Message => "is no message",
        Wanted::Place => "is no instance/round",
        Wanted::Rounds => "is neither a number of rounds nor a word that stands here",
        Wanted::Until => "is not until",
        Wanted::Fact => "is no fact",
        Wanted::Phase => "is no phase",
        Wanted::Reason => "is no reason",
        Wanted::Instance => "is no instance",
        Wanted::Round => "is no round",
        Wanted::Waiting => "is no number of envelopes",
        Wanted::Members => "is neither a list of members nor -",
        Wanted::Messages => "is no message, as 1.1",
        Wanted::Decisions => "is no decision of a later instance, as 1:1.1,2.1",
        Wanted::Registers => "is no other register with its value, as 0=7",
        Wanted::Estimate => "is no value, as {1.1,2.1}",
        Wanted::Ts => "is not ts",
        Wanted::Term => "is neither ever, never, a member, a list of members, all, any nor up",
        Wanted::Whom => "is neither a member, a list of members, all, any nor up",
        Wanted::Extent => "is neither a number nor >=",
        Wanted::Count => "is no number",
        Wanted::Chosen => "is neither a member nor a reason",
        Wanted::Up => "is not up",
        Wanted::Unseen => "is not unseen",
        Wanted::Again => "is not again",
        Wanted::Nothing
        | Wanted::Suspecting
        | Wanted::Sender
        | Wanted::Statement
        | Wanted::SenderOrStatement
        | Wanted::And
        | Wanted::SenderOrAnd => "is left over",
        Wanted::Or => "is left over: a goal has no or, only and",
    }
}

/// What is due there, where the line ends.
#[tactic(auto, unfolding(crate::specs::Places::told_at))]
pub(crate) fn due(wanted: Wanted) -> &'static str
    ensures { result.now ≡ (told_at wanted).due }
{
    match wanted {
        Wanted::Beginning => "a line",
        Wanted::GroupSize => "a number from 1 to 16",
        Wanted::CellCount => "a number from 0 to 1024",
        Wanted::Bound => "a number from 1 to 1048560",
        Wanted::Member => "a member",
        Wanted::Set | Wanted::Side => "a list of members",
        Wanted::Bar => "|",
        Wanted::Doing | Wanted::Act => "an act",
        Wanted::Command => "a command",
        Wanted::Register => "a register",
        Wanted::Amount => "a value",
        Wanted::Envelope | Wanted::Loss => "an envelope",
        Wanted::Serial => "a serial",
        Wanted::Message => "a message",
        Wanted::Place => "an instance/round",
        Wanted::Rounds => "a number of rounds",
        Wanted::Until => "until",
        Wanted::Fact => "a fact",
        Wanted::Phase => "a phase",
        Wanted::Reason => "a reason",
        Wanted::Instance => "an instance",
        Wanted::Round => "a round",
        Wanted::Waiting => "a number of envelopes",
        Wanted::Members => "a list of members or -",
        Wanted::Messages => "a message or -",
        Wanted::Decisions => "a decision or -",
        Wanted::Registers => "a register with its value or -",
        Wanted::Estimate => "a value or -",
        Wanted::Ts => "ts",
        Wanted::Term => "ever, never, a member, a list of members, all, any or up",
        Wanted::Whom => "a member, a list of members, all, any or up",
        Wanted::Extent => "a number or >=",
        Wanted::Count => "a number",
        Wanted::Chosen => "a member or a reason",
        Wanted::Up => "up",
        Wanted::Unseen => "unseen",
        Wanted::Again => "again",
        Wanted::Nothing
        | Wanted::Suspecting
        | Wanted::Sender
        | Wanted::Statement
        | Wanted::SenderOrStatement
        | Wanted::And
        | Wanted::SenderOrAnd
        | Wanted::Or => "nothing",
    }
}
