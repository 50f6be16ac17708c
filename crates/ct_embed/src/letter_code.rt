//! Envelopes by their numbers.

ghost use Rattle.std.specs.Prelude.{◌≡◌};
ghost use Rattle.ct_embed.specs.LetterCodes.{letter_code, vote_code, wire_code};

use crate::message_code::MessageCode;
use ct_names::{Instance, Member, Round};
use ct_world::{Letter, Wire};

/// What an envelope carries, and to whom, by its numbers; fields that its kind lacks are 0.
#[repr(C)]
#[derive(Clone, Copy)]
pub struct LetterCode {
    pub message: MessageCode,
    pub instance: u32,
    pub round: u32,
    pub ts: u32,
    pub kind: u8,
    pub to: u8,
    pub from: u8,
}

impl LetterCode {
    // The envelope's numbers, those of none where there is none.
    pub(crate) fn of(letter: Option<Letter>) -> LetterCode
        ensures { result ≡ letter_code letter }
    {
        match letter {
            None => LetterCode::vote(0, 0, 0, 0, 0, 0),
            Some(letter) => LetterCode::wire(letter.to, letter.wire),
        }
    }

    fn wire(to: Member, wire: Wire) -> LetterCode
        ensures { result ≡ wire_code to wire }
    {
        match wire {
            Wire::Data(message) => LetterCode {
                message: MessageCode::of(&message),
                ..LetterCode::vote(1, to, 0, 0, 0, 0)
            },
            Wire::Est {
                instance,
                round,
                from,
                ts,
                ..
            } => LetterCode::vote(2, to, instance, round, from, ts),
            Wire::Prop {
                instance,
                round,
                ..
            } => LetterCode::vote(3, to, instance, round, 0, 0),
            Wire::Ack {
                instance,
                round,
                from,
            } => LetterCode::vote(4, to, instance, round, from, 0),
            Wire::Nack {
                instance,
                round,
                from,
            } => LetterCode::vote(5, to, instance, round, from, 0),
            Wire::Dec {
                instance,
                round,
                ..
            } => LetterCode::vote(6, to, instance, round, 0, 0),
        }
    }

    fn vote(
        kind: u8,
        to: Member,
        instance: Instance,
        round: Round,
        from: Member,
        ts: Round,
    ) -> LetterCode
        ensures { result ≡ vote_code kind to instance round from ts }
    {
        LetterCode {
            message: MessageCode::none(),
            instance,
            round,
            ts,
            kind,
            to,
            from,
        }
    }
}
