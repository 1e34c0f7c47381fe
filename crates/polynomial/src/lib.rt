// Polynomials over words that stand in bytes: the answer, and the bounds that admission needs. The words are the coefficients, lowest power
// first.
#![tactic(auto)]

ghost use Rattle.std.specs.Prelude.{◌≡◌};
ghost use Rattle.word.specs.Words.{Scale};
ghost use Rattle.word.specs.Exact.{whole_at};
ghost use Rattle.stored.specs.Words.{values};
ghost use Rattle.polynomial.specs.Polynomial.{horner, bound_of, polynomial_admission, PolynomialReady};
ghost use Rattle.polynomial.specs.Exact.{polynomial_exact};

use admission::NotAdmitted;
use word::Marked;

pub fn answer(words: &[[u8; 4]], x: i32, s: u32) -> Marked
    requires { PolynomialReady s (values words.now) x }
    ensures word { result.word ≡ horner s (values words.now) x }
    ensures mark { whole_at s result.loose ≡ polynomial_exact s (values words.now) x }
{
    let last = words.len() - 1;
    let mut running = stored::value(&words[last]);
    let mut loose = 0u64;
    for i in (0..last).rev() {
        let p = word::product(running, x, s);
        running = (stored::value(&words[i]) as i64 + p.value) as i32;
        loose |= p.loose;
    }
    Marked {
        word: running,
        loose,
    }
}

// B_0, or none where some B on the way to it is above the largest word; `most` is the larger of |lo| and |hi|. A pattern that is no word
// is above the largest one.
pub fn bound(words: &[[u8; 4]], most: u32, s: u32) -> Option<u32>
    requires { Scale s }
    ensures { result ≡ bound_of s most (values words.now) }
{
    let mut low = 0u32;
    for i in (0..words.len()).rev() {
        let c = stored::value(&words[i]);
        let n = word::magnitude(c) as u64 + word::bound_product(low, most, s);
        if word::LARGEST < n {
            return None;
        }
        low = n as u32;
    }
    Some(low)
}

pub fn admit(words: &[[u8; 4]], most: u32, s: u32) -> Result<(), NotAdmitted>
    requires { Scale s }
    ensures { result ≡ polynomial_admission s most (values words.now) }
{
    match bound(words, most, s) {
        Some(_) => Ok(()),
        None => Err(NotAdmitted::RangeLeft),
    }
}
