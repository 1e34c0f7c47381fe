// Sine and cosine by an odd formula: a whole sheet, a number and an angle in; an answer or a numbered refusal out.
#![tactic(auto)]

ghost use Rattle.std.specs.Prelude.{◌≡◌};
ghost use Rattle.word.specs.Words.{Word, Scale};
ghost use Rattle.refusal.specs.Guard.{numbered};
ghost use Rattle.records.specs.Sheets.{FormulaBytes};
ghost use Rattle.sheet.specs.Reader.{formula_in};
ghost use Rattle.answering.specs.Answering.{with_mark, answer_at};
ghost use Rattle.turn.specs.Angles.{quarter_of, argument_of, exact_argument};
ghost use Rattle.turn.specs.Sine.{odd_fault, span_fault, sine_fault, signed_answer, sine_by, sine_of, cosine_of};

mod angle;

use formula::{Kind, Worked};
use refusal::{Fault, Refusal};
use sheet::reader;
use word::Argument;

fn odd_fault(kind: Kind) -> Result<(), Fault>
    ensures { numbered result ≡ odd_fault kind }
{
    match kind {
        Kind::Odd => Ok(()),
        _ => Err(Fault::NoSine),
    }
}

// 15 for an interval that does not hold 0 to one.
fn span_fault(lo: i32, hi: i32, s: u32) -> Result<(), Fault>
    requires { Scale s }
    ensures { numbered result ≡ span_fault s lo hi }
{
    if 0 < lo || hi < word::power_of_two(s) as i32 {
        return Err(Fault::NoSine);
    }
    Ok(())
}

// 15 for a formula that is not of the kind odd, or for its interval.
fn sine_fault(b: &[u8], s: u32) -> Result<(), Fault>
    requires { Scale s × FormulaBytes s b.now }
    ensures { numbered result ≡ sine_fault s (formula_in b.now) }
{
    let row = table::row_of(layout::code(b));
    let kind = row.kind;
    odd_fault(kind)?;
    span_fault(layout::lo(b), layout::hi(b), s)
}

// f / 2^(30 - s), rounded as a product is: a quarter turn is one.
fn argument(angle: u32, s: u32) -> Argument
    requires { Scale s }
    ensures word { result.word ≡ argument_of s angle }
    ensures mark { result.exact ≡ exact_argument s angle }
{
    let cut = 30 - s;
    let r = word::rounded_shift(angle::folded(angle) as i64, cut);
    let word = r.value as i32;
    let exact = word::is_whole(r.loose, cut);
    Argument { word, exact }
}

// The answer, its word negated where the sign is set.
fn signed(answer: Worked, sign: bool) -> Worked
    requires { Word answer.word }
    ensures { result ≡ signed_answer sign answer }
{
    Worked {
        word: word::with_sign(sign, answer.word as i64) as i32,
        steps: answer.steps,
        exact: answer.exact,
    }
}

// 15, or the formula's answer at the angle's argument, rounded where that is, and negated in quarters 2 and 3.
fn sine_of(b: &[u8], angle: u32, s: u32) -> Result<Worked, Refusal>
    requires { Scale s × FormulaBytes s b.now }
    ensures { result ≡ sine_by s (formula_in b.now) (quarter_of angle) (with_mark (exact_argument s angle) (answer_at s (formula_in b.now) (argument_of s angle))) }
{
    sine_fault(b, s)?;
    let x = argument(angle, s);
    let answer = answering::with_mark(answering::answer_of(b, x.word, s), x.exact)?;
    Ok(signed(answer, 1 < angle::quarter(angle)))
}

pub fn sine(s: &[u8], number: u16, angle: u32, places: u32) -> Result<Worked, Refusal>
    ensures { result ≡ sine_of places s.now number angle }
{
    let place = reader::formula_place(s, number, places)?;
    sine_of(layout::record_at(s, place), angle, places)
}

// The sine of the angle plus a quarter, which wraps.
pub fn cosine(s: &[u8], number: u16, angle: u32, places: u32) -> Result<Worked, Refusal>
    ensures { result ≡ cosine_of places s.now number angle }
{
    sine(s, number, angle.wrapping_add(angle::QUARTER), places)
}
