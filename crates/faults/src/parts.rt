// The checks of a formula record's parts: its counts and length, its place among the others, its words and whether
// they are all zero, its interval and mode.
ghost use Rattle.std.specs.Prelude.{◌≡◌};
ghost use Rattle.stored.specs.Words.{values};
ghost use Rattle.formula.specs.Blank.{all_zero};
ghost use Rattle.table.specs.Rule.{Ruled};
ghost use Rattle.refusal.specs.Guard.{number_of, numbered};
ghost use Rattle.faults.specs.Faults.{outside, outside_by, count_fault, size_fault, order_fault, word_fault, words_fault, interval_fault, kind_fault, own_fault};

use formula::{Kind, Shape};
use refusal::Fault;
use table::{Field, Row};

// Whether a number is outside a field's range: then the fault that is handed in, of any type.
pub fn outside<F: Copy>(field: Field, n: u16, fault: F) -> Result<(), F>
    ensures { result ≡ outside_by field n fault }
{
    if n < field.least || field.most < n {
        return Err(fault);
    }
    Ok(())
}

// The same of a fault, by its number.
#[tactic(auto, using(crate::proofs::Lengths::outside_number))]
pub fn range_fault(field: Field, n: u16, fault: Fault) -> Result<(), Fault>
    ensures { numbered result ≡ outside field n (number_of fault) }
{
    outside(field, n, fault)
}

// A count of coefficients or depth outside its range (2).
#[tactic(auto, unfolding(crate::specs::Faults::count_fault))]
pub fn count_fault(row: Row, p: u16, q: u16) -> Result<(), Fault>
    ensures { numbered result ≡ count_fault row p q }
{
    let first = row.p;
    range_fault(first, p, Fault::Length)?;
    let second = row.q;
    range_fault(second, q, Fault::Length)
}

#[tactic(auto, using(crate::proofs::Lengths::first_in, crate::proofs::Lengths::second_in), unfolding(crate::specs::Faults::size_fault))]
pub fn size_fault(row: Row, shape: Shape, n: usize) -> Result<(), Fault>
    requires { Ruled row }
    ensures { numbered result ≡ size_fault row shape n }
{
    count_fault(row, shape.p, shape.q)?;
    if table::length_by(row, shape.p, shape.q) != n {
        return Err(Fault::Length);
    }
    Ok(())
}

// A formula too many (4), or a number not above the one before (5).
#[tactic(auto, unfolding(crate::specs::Faults::order_fault))]
pub fn order_fault(seen: u16, count: u16, next: u32, number: u16) -> Result<(), Fault>
    ensures { numbered result ≡ order_fault seen count next number }
{
    if seen == count {
        return Err(Fault::Count);
    }
    if (number as u32) < next {
        return Err(Fault::Order);
    }
    Ok(())
}

// The least word. Below it stands the one pattern that is no word.
const LEAST: i32 = -(word::LARGEST as i32);

fn word_fault(x: i32) -> Result<(), Fault>
    ensures { numbered result ≡ word_fault x }
{
    if x < LEAST {
        return Err(Fault::Value);
    }
    Ok(())
}

// 6 where one of the words is none.
pub fn words_fault(words: &[[u8; 4]]) -> Result<(), Fault>
    ensures { numbered result ≡ words_fault (values words.now) }
{
    for word in words {
        word_fault(stored::value(word))?;
    }
    Ok(())
}

// Whether each of the words is zero.
pub fn all_zero(words: &[[u8; 4]]) -> bool
    ensures { result ≡ all_zero (values words.now) }
{
    for word in words {
        if stored::value(word) != 0 {
            return false;
        }
    }
    true
}

// That hi is a word follows: it is not below lo.
fn interval_fault(lo: i32, hi: i32) -> Result<(), Fault>
    ensures { numbered result ≡ interval_fault lo hi }
{
    word_fault(lo)?;
    if hi < lo {
        return Err(Fault::Value);
    }
    Ok(())
}

fn kind_fault(kind: Kind, lo: i32) -> Result<(), Fault>
    ensures { numbered result ≡ kind_fault kind lo }
{
    match kind {
        Kind::Root if lo < 0 => Err(Fault::Value),
        _ => Ok(()),
    }
}

// 6 of all but the words: the interval, the mode, the kind's own.
#[tactic(auto, unfolding(crate::specs::Faults::own_fault))]
pub fn own_fault(row: Row, shape: Shape, lo: i32, hi: i32) -> Result<(), Fault>
    ensures { numbered result ≡ own_fault row shape lo hi }
{
    interval_fault(lo, hi)?;
    let mode = row.mode;
    range_fault(mode, shape.mode, Fault::Value)?;
    let kind = row.kind;
    kind_fault(kind, lo)
}
