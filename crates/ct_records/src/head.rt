//! What stands before the steps of a record, and what behind them.

ghost use Rattle.std.specs.Prelude.{◌≡◌, ◌∷◌, [], true, IfSome, IsTrue};
ghost use Rattle.json.specs.Lex.{token};
ghost use Rattle.json.specs.Token.{end_object};
ghost use Rattle.json.specs.Word.{ends_word};
ghost use Rattle.ct_records.specs.Fits.{AllFit};
ghost use Rattle.ct_records.specs.Lexemes.{lexemes};
ghost use Rattle.ct_records.specs.Reading.{IsAscii, ReadsKey};
ghost use Rattle.ct_records.specs.Front.{IsEnd};
ghost use Rattle.ct_records.specs.Members.{AreAll, IsRest, IsUpToList, IsUpToSteps};

use crate::numbers::{Numbers, is};
use crate::scan::{is_white, mark, name, number};
use ct_world::World;

/// How many bytes are read before the first step, and may be left where no step stands in front: more than one takes, with
/// some white space.
pub(crate) const MOST: usize = 1_024;

// How many keys a record has at most.
const KEYS: usize = 5;

/// The numbers before the steps, and what follows the bracket that opens the list of steps. None: no record begins there
/// whose first keys are written without escapes, or not all up to the bracket stands there.
pub(crate) fn head(bytes: &[u8]) -> Option<(Numbers, &[u8])>
    ensures { IfSome result (λ r. IsUpToSteps bytes.now r.0 r.1.now) }
{
    up_to_steps(mark(bytes, b'{')?)
}

// The numbers, and what follows the bracket behind the key of the steps.
fn up_to_steps(bytes: &[u8]) -> Option<(Numbers, &[u8])>
    ensures { IfSome result (λ r. IsUpToList bytes.now r.0 r.1.now) }
{
    let mut numbers = Numbers::none();
    let mut rest = bytes;
    for _ in 0..KEYS {
        let (key, value) = key(rest)?;
        if is(key, "steps") {
            return Some((numbers, mark(value, b'[')?));
        }
        let (n, after) = number(value, u64::MAX)?;
        numbers = numbers.with(key, n)?;
        rest = mark(after, b',')?;
    }
    None
}

// A key between quotation marks, and what follows the colon behind it.
fn key(bytes: &[u8]) -> Option<(&[u8], &[u8])>
    ensures { IfSome result (λ r. ReadsKey bytes.now r.0.now r.1.now) }
{
    let (key, rest) = name(bytes)?;
    Some((key, mark(rest, b':')?))
}

/// Whether the bytes end the record of the world, where these numbers stand before its steps.
pub(crate) fn is_end(bytes: &[u8], numbers: Numbers, world: &World) -> bool
    requires { AllFit world.now.rehearsal.steps }
    ensures { IsTrue result → IsEnd numbers world.now.rehearsal bytes.now }
{
    match all_numbers(bytes, numbers) {
        Some(all) => is_ascii(bytes) && all.are_of(world),
        None => false,
    }
}

/// The numbers before the steps and behind them, where the bytes end the record.
pub(crate) fn all_numbers(bytes: &[u8], earlier: Numbers) -> Option<Numbers>
    ensures { IfSome result (AreAll earlier bytes.now) }
{
    with_later(earlier, mark(bytes, b']')?)
}

// With the numbers behind the steps, where these end the record.
fn with_later(earlier: Numbers, bytes: &[u8]) -> Option<Numbers>
    ensures { IfSome result (IsRest earlier bytes.now) }
{
    let mut numbers = earlier;
    let mut rest = bytes;
    for _ in 0..KEYS {
        let Some(next) = mark(rest, b',') else {
            return if closes(rest) { Some(numbers) } else { None };
        };
        let (key, value) = key(next)?;
        let (n, after) = number(value, u64::MAX)?;
        numbers = numbers.with(key, n)?;
        rest = after;
    }
    None
}

// Whether the bracket that closes an object stands there, and nothing but white space behind it.
fn closes(bytes: &[u8]) -> bool
    ensures lexemes { IsTrue result → lexemes bytes.now ≡ token end_object ∷ [] }
    ensures ends { IsTrue result → ends_word bytes.now ≡ true }
{
    match mark(bytes, b'}') {
        Some(rest) => is_white(rest),
        None => false,
    }
}

/// Whether the bytes are in ASCII.
pub(crate) fn is_ascii(bytes: &[u8]) -> bool
    ensures { IsTrue result → IsAscii bytes.now }
{
    bytes.iter().all(|byte| *byte < 128)
}
