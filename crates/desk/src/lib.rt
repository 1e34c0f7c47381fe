// Doubles at the desk: a whole sheet, a number and a double in; a double with its steps and its mark, or a numbered refusal, out. A
// formula's interval as two doubles.
#![tactic(auto)]

ghost use Rattle.std.specs.Prelude.{◌≡◌};
ghost use Rattle.word.specs.Words.{Scale};
ghost use Rattle.records.specs.Sheets.{FormulaBytes};
ghost use Rattle.sheet.specs.Reader.{formula_in, formula_read};
ghost use Rattle.desk.specs.Desk.{taken_at, evaluated_double, ShownOf, ShownAs, EndsOf, IntervalAs};

pub mod answers;

use answers::Shown;
use door::answer::Ends;
use formula::Worked;
use refusal::Refusal;
use sheet::reader;

// A double as the argument: 13 comes before 10, and the door's own rounding counts in the mark.
fn taken_of(b: &[u8], x: f64, s: u32) -> Result<Worked, Refusal>
    requires { Scale s × FormulaBytes s b.now }
    ensures { result ≡ taken_at s (formula_in b.now) x }
{
    let argument = door::taken(x, s)?;
    answering::with_mark(answering::answer_of(b, argument.word, s), argument.exact)
}

fn shown(answer: Worked, s: u32) -> Shown
    requires { Scale s }
    ensures { ShownOf s answer result }
{
    Shown {
        value: door::shown(answer.word, s),
        steps: answer.steps,
        exact: answer.exact,
    }
}

pub fn evaluate_double(s: &[u8], number: u16, x: f64, places: u32) -> Result<Shown, Refusal>
    ensures { ShownAs places (evaluated_double places s.now number x) result }
{
    let place = reader::formula_place(s, number, places)?;
    let answer = taken_of(layout::record_at(s, place), x, places)?;
    Ok(shown(answer, places))
}

fn ends_of(b: &[u8], s: u32) -> Ends
    requires { Scale s × FormulaBytes s b.now }
    ensures { EndsOf s (formula_in b.now) result }
{
    door::ends(layout::lo(b), layout::hi(b), s)
}

pub fn interval(s: &[u8], number: u16, places: u32) -> Result<Ends, Refusal>
    ensures { IntervalAs places (formula_read places s.now number) result }
{
    let place = reader::formula_place(s, number, places)?;
    Ok(ends_of(layout::record_at(s, place), places))
}
