// Rational formulas over words that stand in bytes: the coefficients of a numerator and of a divisor.
#![tactic(auto)]

ghost use Rattle.std.specs.Prelude.{◌≡◌, ◌<◌, ◌≤◌, length};
ghost use Rattle.word.specs.Words.{Scale, largest};
ghost use Rattle.word.specs.Exact.{whole_at};
ghost use Rattle.stored.specs.Words.{values};
ghost use Rattle.rational.specs.Rational.{rational_of, rational_admission, ratio_admission, RationalReady};
ghost use Rattle.rational.specs.Exact.{rational_exact};

use admission::NotAdmitted;
use word::Marked;

pub fn answer(numerator: &[[u8; 4]], divisor: &[[u8; 4]], x: i32, s: u32) -> Marked
    requires { RationalReady s (values numerator.now) (values divisor.now) x }
    ensures word { result.word ≡ rational_of s (values numerator.now) (values divisor.now) x }
    ensures mark { whole_at s result.loose ≡ rational_exact s (values numerator.now) (values divisor.now) x }
{
    let n = polynomial::answer(numerator, x, s);
    let d = polynomial::answer(divisor, x, s);
    let r = word::quotient(n.word, d.word, s);
    let word = r.value as i32;
    let loose = n.loose | d.loose | r.loose;
    Marked { word, loose }
}

// The tests after the bounds: `top` is the numerator's B_0, `first` is |d0| and `rest` the divisor's B_1.
fn admit_ratio(top: u32, first: u32, rest: u32, most: u32, s: u32) -> Result<(), NotAdmitted>
    requires { Scale s × (rest ≤ largest) }
    ensures { result ≡ ratio_admission s most top first rest }
{
    let d = first as u64;
    let g = word::bound_product(rest, most, s);
    if word::LARGEST < d + g {
        return Err(NotAdmitted::RangeLeft);
    }
    if d <= g {
        return Err(NotAdmitted::DivisorZero);
    }
    if word::LARGEST < word::bound_quotient(top, (d - g) as u32, s) {
        return Err(NotAdmitted::RangeLeft);
    }
    Ok(())
}

// `most` is the larger of |lo| and |hi|.
pub fn admit(
    numerator: &[[u8; 4]],
    divisor: &[[u8; 4]],
    most: u32,
    s: u32,
) -> Result<(), NotAdmitted>
    requires { Scale s × (0 < length divisor.now) }
    ensures { result ≡ rational_admission s most (values numerator.now) (values divisor.now) }
{
    let Some(top) = polynomial::bound(numerator, most, s) else {
        return Err(NotAdmitted::RangeLeft);
    };
    let Some(rest) = polynomial::bound(&divisor[1..], most, s) else {
        return Err(NotAdmitted::RangeLeft);
    };
    let first = word::magnitude(stored::value(&divisor[0]));
    admit_ratio(top, first, rest, most, s)
}
