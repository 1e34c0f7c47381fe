// One formula at one argument: its answer inside its interval, or 10 outside it.
#![tactic(auto)]

ghost use Rattle.std.specs.Prelude.{◌≡◌};
ghost use Rattle.word.specs.Words.{Scale};
ghost use Rattle.formula.specs.Formula.{worked_of, Answerable};
ghost use Rattle.table.specs.declared.Class.TheVariants.{FormulaRecord};
ghost use Rattle.layout.specs.Fields.{row_for, shape_of, words_of};
ghost use Rattle.records.specs.Sheets.{RecordOf, FormulaBytes};
ghost use Rattle.sheet.specs.Reader.{formula_in};
ghost use Rattle.answering.specs.Answering.{with_mark, answer_at};

use formula::Worked;
use refusal::{Fault, Refusal};

fn worked_at(b: &[u8], x: i32, s: u32) -> Worked
    requires { RecordOf FormulaRecord b.now × Answerable s (shape_of (row_for b.now) b.now) (words_of (row_for b.now) b.now) x }
    ensures { result ≡ worked_of s (shape_of (row_for b.now) b.now) (words_of (row_for b.now) b.now) x }
{
    let row = table::row_of(layout::code(b));
    formula::answer(layout::words(b, row), layout::shape_of(b, row), x, s)
}

// The formula's answer where x lies in its interval, both ends inside.
pub fn answer_of(b: &[u8], x: i32, s: u32) -> Result<Worked, Refusal>
    requires { Scale s × FormulaBytes s b.now }
    ensures { result ≡ answer_at s (formula_in b.now) x }
{
    if x < layout::lo(b) || layout::hi(b) < x {
        return Err(Refusal::from(Fault::Outside));
    }
    // Field by field: copied as one the struct is packed into a single number, which costs every kind instructions.
    let w = worked_at(b, x, s);
    Ok(Worked {
        word: w.word,
        steps: w.steps,
        exact: w.exact,
    })
}

// The answer with its argument's own rounding counted: it stays exact only where the argument is exact too. A refusal stays as it is.
pub fn with_mark(e: Result<Worked, Refusal>, exact: bool) -> Result<Worked, Refusal>
    ensures { result ≡ with_mark exact e }
{
    let answer = e?;
    Ok(Worked {
        word: answer.word,
        steps: answer.steps,
        exact: exact & answer.exact,
    })
}
