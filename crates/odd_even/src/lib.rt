// The kinds `even` and `odd`, over words that stand in bytes: a polynomial at the square of x, and x times that. The words are the
// coefficients, lowest power first; the walk over them, and over their bounds, is the polynomial's.
#![tactic(auto)]

ghost use Rattle.std.specs.Prelude.{◌≡◌, cond, ◌^◌, ◌≤◌, ltb};
ghost use Rattle.word.specs.Words.{Scale};
ghost use Rattle.word.specs.Exact.{whole_at};
ghost use Rattle.stored.specs.Words.{values};
ghost use Rattle.odd_even.specs.OddEven.{even_of, odd_of, bound_at_square, even_admission, odd_admission, EvenReady, OddReady};
ghost use Rattle.odd_even.specs.Exact.{even_exact, odd_exact};

use admission::NotAdmitted;
use word::Marked;

// What is loose of the square, where the polynomial uses it: from two coefficients on.
fn used(m: usize, loose: u64) -> u64
    ensures { result ≡ cond (ltb 1 m) loose 0 }
{
    if 1 < m { loose } else { 0 }
}

pub fn even(words: &[[u8; 4]], x: i32, s: u32) -> Marked
    requires { EvenReady s (values words.now) x }
    ensures word { result.word ≡ even_of s (values words.now) x }
    ensures mark { whole_at s result.loose ≡ even_exact s (values words.now) x }
{
    let square = word::product(x, x, s);
    let a = polynomial::answer(words, square.value as i32, s);
    Marked {
        word: a.word,
        loose: used(words.len(), square.loose) | a.loose,
    }
}

pub fn odd(words: &[[u8; 4]], x: i32, s: u32) -> Marked
    requires { OddReady s (values words.now) x }
    ensures word { result.word ≡ odd_of s (values words.now) x }
    ensures mark { whole_at s result.loose ≡ odd_exact s (values words.now) x }
{
    let e = even(words, x, s);
    let p = word::product(e.word, x, s);
    let word = p.value as i32;
    let loose = e.loose | p.loose;
    Marked { word, loose }
}

// B_0 with S, the bound product of A with itself, in place of A. An S above the largest word has none, whatever the coefficients are.
fn bound_at_square(words: &[[u8; 4]], most: u32, s: u32) -> Option<u32>
    requires { Scale s × (most ≤ 2 ^ 31) }
    ensures { result ≡ bound_at_square s most (values words.now) }
{
    let square = word::bound_product(most, most, s);
    if word::LARGEST < square {
        return None;
    }
    polynomial::bound(words, square as u32, s)
}

pub fn admit_even(words: &[[u8; 4]], most: u32, s: u32) -> Result<(), NotAdmitted>
    requires { Scale s × (most ≤ 2 ^ 31) }
    ensures { result ≡ even_admission s most (values words.now) }
{
    match bound_at_square(words, most, s) {
        Some(_) => Ok(()),
        None => Err(NotAdmitted::RangeLeft),
    }
}

pub fn admit_odd(words: &[[u8; 4]], most: u32, s: u32) -> Result<(), NotAdmitted>
    requires { Scale s × (most ≤ 2 ^ 31) }
    ensures { result ≡ odd_admission s most (values words.now) }
{
    let Some(low) = bound_at_square(words, most, s) else {
        return Err(NotAdmitted::RangeLeft);
    };
    if word::LARGEST < word::bound_product(low, most, s) {
        return Err(NotAdmitted::RangeLeft);
    }
    Ok(())
}
