// The checks of a formula record in the paper's order, over the words where they stand. One function for each code, by a constant: the
// compiler then has the numbers of its row as constants.
// What reader and writers share: a caller of theirs needs none of it.
#![tactic(auto)]

ghost use Rattle.std.specs.Prelude.{◌≡◌, ◌≤◌, length};
ghost use Rattle.word.specs.Words.{Scale, largest};
ghost use Rattle.stored.specs.Words.{values};
ghost use Rattle.admission.specs.Admission.{Judged};
ghost use Rattle.formula.specs.Formula.{most_of, admission_by};
ghost use Rattle.formula.specs.Blank.{blank_of};
ghost use Rattle.table.specs.Table.{row_of};
ghost use Rattle.table.specs.Rule.{Ruled};
ghost use Rattle.table.specs.declared.Class.TheVariants.{FormulaRecord};
ghost use Rattle.layout.specs.Fields.{lo_of, hi_of, row_for};
ghost use Rattle.refusal.specs.Guard.{number_of, numbered, or_else};
ghost use Rattle.faults.specs.Faults.{words_fault};
ghost use Rattle.records.specs.Records.{WordsOf, front_fault, judged_fault, only_formula, formula_fault};

use admission::NotAdmitted;
use faults::parts;
use formula::{Kind, Shape};
use refusal::Fault;
use table::Row;

// All that comes before the words: exact length (2); 4; 5; 6 of all but the words.
fn front_fault(b: &[u8], row: Row, seen: u16, count: u16, next: u32) -> Result<(), Fault>
    requires { Ruled row × (row.class ≡ FormulaRecord) × (length b.now ≤ 120) }
    ensures { numbered result ≡ front_fault row b.now seen count next }
{
    if b.len() < row.head {
        return Err(Fault::Length);
    }
    let shape = layout::shape_of(b, row);
    parts::size_fault(row, shape, b.len())?;
    parts::order_fault(seen, count, next, layout::number(b))?;
    parts::own_fault(row, shape, layout::lo(b), layout::hi(b))
}

// A number that is no word comes before 14, 7 and 8. Admission never admits one, so the words are looked at only where there is one of these.
fn words_first(words: &[[u8; 4]], fault: Fault) -> Result<(), Fault>
    ensures { numbered result ≡ or_else (words_fault (values words.now)) (number_of fault) }
{
    parts::words_fault(words)?;
    Err(fault)
}

// The fault of what admission has found over the words.
fn admission_fault(words: &[[u8; 4]], found: Result<(), NotAdmitted>) -> Result<(), Fault>
    ensures { numbered result ≡ judged_fault (values words.now) found }
{
    match found {
        Ok(()) => Ok(()),
        Err(refused) => words_first(words, Fault::from(refused)),
    }
}

// A, the larger of |lo| and |hi|.
fn most(b: &[u8]) -> u32
    requires { 16 ≤ length b.now }
    ensures { result ≡ most_of (lo_of b.now) (hi_of b.now) }
{
    formula::most_of(layout::lo(b), layout::hi(b))
}

// The words of a fraction begin with these two.
const B0_AND_A1: usize = 2;

// Whether a formula is blank: by all of its coefficients; a rational by its numerator, which stands first. A root has no words and never is.
#[inline(always)]
fn blank(words: &[[u8; 4]], shape: Shape) -> bool
    requires { WordsOf shape words.now }
    ensures { result ≡ blank_of shape (values words.now) }
{
    match shape.kind {
        Kind::Polynomial | Kind::Rational | Kind::Odd | Kind::Even => {
            parts::all_zero(&words[..shape.p as usize])
        }
        Kind::Fraction => parts::all_zero(&words[..B0_AND_A1]),
        Kind::Root | Kind::NoFormula => false,
    }
}

// What the kind's own admission finds. A root is always admitted.
#[inline(always)]
fn admission(words: &[[u8; 4]], shape: Shape, most: u32, s: u32) -> Result<(), NotAdmitted>
    requires { Scale s × (most ≤ largest) × WordsOf shape words.now }
    ensures { Judged (values words.now) (admission_by shape.kind s most shape.p shape.q shape.mode (values words.now)) result }
{
    let p = shape.p as usize;
    match shape.kind {
        Kind::Polynomial => polynomial::admit(words, most, s),
        Kind::Rational => rational::admit(&words[..p], &words[p..], most, s),
        Kind::Fraction => fraction_admission::admit(words, shape.mode as u32, most, s),
        Kind::Root => Ok(()),
        Kind::Odd => odd_even::admit_odd(words, most, s),
        Kind::Even => odd_even::admit_even(words, most, s),
        Kind::NoFormula => Err(NotAdmitted::RangeLeft),
    }
}

// All that a record of a formula's code is refused for.
fn fault_by<const CODE: u16>(
    b: &[u8],
    seen: u16,
    count: u16,
    next: u32,
    s: u32,
) -> Result<(), Fault>
    requires { Scale s × (length b.now ≤ 120) × ((row_of CODE).class ≡ FormulaRecord) }
    ensures { numbered result ≡ formula_fault s (row_of CODE) b.now seen count next }
{
    let row = table::row_of(CODE);
    front_fault(b, row, seen, count, next)?;
    let shape = layout::shape_of(b, row);
    let words = layout::words(b, row);
    if blank(words, shape) {
        return words_first(words, Fault::Blank);
    }
    admission_fault(words, admission(words, shape, most(b), s))
}

// 3 for a record that is no formula; then all that a formula record is refused for.
#[tactic(auto, using(crate::proofs::FormulaLaws::no_formula))]
pub fn formula_fault(b: &[u8], seen: u16, count: u16, next: u32, s: u32) -> Result<(), Fault>
    requires { Scale s × (8 ≤ length b.now) × (length b.now ≤ 120) }
    ensures { numbered result ≡ or_else (only_formula (row_for b.now).class) (formula_fault s (row_for b.now) b.now seen count next) }
{
    match layout::code(b) {
        table::POLYNOMIAL => fault_by::<{ table::POLYNOMIAL }>(b, seen, count, next, s),
        table::RATIONAL => fault_by::<{ table::RATIONAL }>(b, seen, count, next, s),
        table::FRACTION => fault_by::<{ table::FRACTION }>(b, seen, count, next, s),
        table::ROOT => fault_by::<{ table::ROOT }>(b, seen, count, next, s),
        table::ODD => fault_by::<{ table::ODD }>(b, seen, count, next, s),
        table::EVEN => fault_by::<{ table::EVEN }>(b, seen, count, next, s),
        _ => Err(Fault::Kind),
    }
}
