//! Questions, in words.

ghost use Rattle.std.specs.Prelude.{◌≡◌, map};
ghost use Rattle.ct_grammar.specs.Questions.{lone_member, alone, short_question, question_of};

use crate::leading::{member_first, over};
use crate::question::Question;
use crate::unfit::Unfit;
use crate::wanted::Wanted;
use ct_names::Member;

/// A member, alone.
#[tactic(auto, unfolding(crate::specs::Questions::lone_member))]
pub(crate) fn lone_member(words: &[&str]) -> Result<Member, Unfit>
    ensures { result ≡ lone_member (map (λ word. word.now) words.now) }
{
    let (p, rest) = member_first(words, Wanted::Member)?;
    over(rest, Wanted::Nothing)?;
    Ok(p)
}

// The question, where no words stand there.
fn alone(question: Question, words: &[&str]) -> Result<Question, Unfit>
    ensures { result ≡ alone question (map (λ word. word.now) words.now) }
{
    over(words, Wanted::Nothing)?;
    Ok(question)
}

// A question of the whole run; other words begin no line.
#[tactic(auto, unfolding(crate::specs::Questions::short_question))]
fn short_question(name: &str, words: &[&str]) -> Result<Question, Unfit>
    ensures { result ≡ short_question name.now (map (λ word. word.now) words.now) }
{
    match name {
        "report" => alone(Question::Report, words),
        "record" => alone(Question::Record, words),
        "limits" => alone(Question::Limits, words),
        _ => Err(Unfit::before(words, Wanted::Beginning)),
    }
}

/// A question of a member, or of the whole run.
#[tactic(auto, unfolding(crate::specs::Questions::question_of))]
pub(crate) fn question(name: &str, words: &[&str]) -> Result<Question, Unfit>
    ensures { result ≡ question_of name.now (map (λ word. word.now) words.now) }
{
    match name {
        "enabled" => Ok(Question::Enabled(lone_member(words)?)),
        "next" => Ok(Question::Next(lone_member(words)?)),
        "state" => Ok(Question::State(lone_member(words)?)),
        "waiting" => Ok(Question::Waiting(lone_member(words)?)),
        _ => short_question(name, words),
    }
}
