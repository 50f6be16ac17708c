//! The lines of a schedule: a text in which a run is written step by step, its envelopes by what they carry; and goals.
//!
//! Spaces, tabs and carriage returns part words. A word that begins with `#` and no digit behind it begins a comment. Numbers
//! are decimal digits alone, within the range of their type; zeros may stand first.
//!
//! ```text
//! members N            1 to 16
//! cells K              0 to 1024
//! batch B              1 to 1048560
//! WHO ACT              WHO: a member, a list `P,Q,..` (each 1 to 16), or `all`; also with what the act does behind it
//! crash P              the same as `P crash`
//! WHO turns N          also behind it `suspecting SET`
//! WHO turns until GOAL, WHO turns suspecting SET until GOAL
//! WHO settle           also behind it `suspecting SET`
//! cut SET | SET ..     no member twice
//! heal
//! expect GOAL
//! enabled P, next P, state P, waiting P, report, record, limits
//!
//! SET                  P,Q,.., each 1 to 16
//! ACT                  submit COMMAND, receive PICK, begin, enter, choose P, adopt, suspect, conclude, deliver, follow, crash,
//!                      postpone PICK, lose PICK, lose from SET, repeat PICK
//! COMMAND              set R V, add R V, copy F T
//! PICK                 #SERIAL, KIND, KIND from P
//! KIND                 data O.N, est I/R, prop I/R, ack I/R, nack I/R, dec I/R
//! FACT                 up, crashed, idle, instance I, round R, phase NAME, received O.N O.N .., decided I:O.N,O.N .. (rising
//!                      instances; I:- for no message), delivered O.N O.N .., table R=V R=V .. (no register twice, V from 1),
//!                      estimate {O.N,O.N} ts R, heard SET, acked SET, refuses ACT REASON, may ACT, waiting N, waits PICK;
//!                      received, decided, delivered, table, estimate, heard and acked also with - for none
//! REASON               the name of a refusal by the rules, as Idle or Full(Steps), NotThere or Across
//! ```
//!
//! What an act does is stated behind it by a command, alone, where it receives `data O.N`, and by a value, `{O.N,O.N}` or
//! `{O.N,O.N and N more}`, with `ts R` behind it or without, where it receives `est`, `prop` or `dec`, and where it is begin, enter,
//! choose, adopt, conclude, deliver or follow; by either where it receives `#SERIAL`. Of other acts, and of what carries `ack` or
//! `nack`, nothing is stated. Behind a comma within braces may stand blanks.
//!
//! A member or a register that no group or table has is understood, as member 0; the step is refused.
//!
//! A goal says what a run shows: each of its terms holds. The word `and` parts them.
//!
//! ```text
//! GOAL                 TERM, TERM and TERM ..
//! TERM                 WHOM CLAIM, ever WHOM CLAIM, never WHOM CLAIM
//! WHOM                 a member, a list P,Q,.. (each 1 to 16), all, any, up
//! CLAIM                FACT, instance >= N, round >= N, waiting >= N,
//!                      received count N, decided count N, delivered count N, each also with >= before N,
//!                      decided N, delivered O.N before O.N, refuses choose REASON,
//!                      suspects up, follows N, chooses unseen, concludes again, settled, stuck
//! ```
//!
//! Of a line or a goal that is not understood a [`Misfit`] says which word does not fit, or that it ends too early, and what could
//! stand there. In a term that ends too early before an `and`, it is this word that does not fit. A name that could stand there is
//! near to the word where they are the same but for the case of ASCII letters; else where, behind what both begin with, one letter is
//! more or less, or two are swapped; else where one is another. In a name of two letters none is less or another.
#![tactic(auto)]

mod act;
mod acting;
mod asking;
mod carried;
mod claim;
mod claiming;
mod cutting;
mod expecting;
mod fact;
mod feeds;
mod given;
mod goal;
mod goals;
mod leading;
mod line;
mod misfit;
mod naming;
mod naming_members;
mod near;
mod numbers;
mod pick;
mod picking;
mod places;
mod play;
mod question;
mod reading;
mod reason;
mod reports;
mod sides;
mod statement;
mod stating;
mod term;
mod text;
mod turning;
mod unfit;
mod wanted;
mod who;
mod words;

pub use act::Act;
pub use carried::Carried;
pub use claim::{Amount, Claim, Extent, Name};
pub use fact::Fact;
pub use feeds::{behind, first_feed, text_in};
pub use given::Given;
pub use goal::Goal;
pub use goals::goal_of;
pub use line::Line;
pub use misfit::{LONGEST_WORD, Misfit, push_act_hint};
pub use numbers::members;
pub use pick::Pick;
pub use play::Play;
pub use question::Question;
pub use reading::line_of;
pub use reason::Reason;
pub use reports::{Decision, Decisions, Estimate, Listed, Names};
pub use sides::Sides;
pub use statement::Statement;
pub use term::{Term, When, Whom};
pub use text::Text;
pub use who::Who;
