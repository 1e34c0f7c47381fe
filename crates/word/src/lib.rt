// The number on the board: products and quotients, whether they rounded, and their bounds, of words at s binary places.
#![tactic(auto)]

ghost use Rattle.std.specs.Prelude.{◌≡◌, ◌*◌, ◌<◌, ◌≤◌, ◌^◌, nat_abs, pos};
ghost use Rattle.word.specs.Rounded.{rounded};
ghost use Rattle.word.specs.Words.{Scale, Factors, Division, unit, with_sign, product_of, quotient_of, bound_product, bound_quotient};
ghost use Rattle.word.specs.Exact.{divides, exact_product, exact_quotient, whole_at};

// A product or a quotient, rounded to a whole number. The last s binary digits of `loose` are 0 exactly where nothing was rounded off. A
// walk joins the `loose` of its operations by `or`; the digits are looked at once, when the answer is done.
#[derive(Drop)]
pub struct Rounding {
    pub value: i64,
    pub loose: u64,
}

// A word worked out by such operations, and the `loose` of all of them.
#[derive(Drop)]
pub struct Marked {
    pub word: i32,
    pub loose: u64,
}

// An argument as a word, and whether nothing was rounded off to make it one.
#[derive(Drop)]
pub struct Argument {
    pub word: i32,
    pub exact: bool,
}

// M, the largest word.
pub const LARGEST: u64 = 2147483647;

// |x|. Of the pattern that is no word it is 2147483648.
pub fn magnitude(x: i32) -> u32
    ensures { result ≡ nat_abs x }
{
    x.unsigned_abs()
}

// m, negated where the sign is set: the one place where a 64-bit number's sign is taken off or put back.
pub fn with_sign(sign: bool, m: i64) -> i64
    requires { nat_abs m < 2 ^ 63 }
    ensures { result ≡ with_sign sign m }
{
    if sign { -m } else { m }
}

pub fn power_of_two(k: u32) -> u64
    requires { k < 64 }
    ensures { result ≡ 2 ^ k }
{
    1u64 << (k as u64)
}

// Whether the last s binary digits are 0.
pub fn is_whole(loose: u64, s: u32) -> bool
    requires { s < 64 }
    ensures { result ≡ whole_at s loose }
{
    let mask = power_of_two(s) - 1;
    loose & mask == 0
}

// a·2^s, by a shift.
pub fn scaled(a: u32, s: u32) -> u64
    requires { Scale s }
    ensures { result ≡ a * unit s }
{
    (a as u64) << (s as u64)
}

// size / 2^cut, rounded, and then the sign put back. The shift rounds down, so half of the divisor is added first.
fn rounded_with_sign(sign: bool, size: u64, cut: u32) -> i64
    requires { (size < 2 ^ 62) × (0 < cut) × (cut < 63) }
    ensures { result ≡ rounded (with_sign sign (pos size)) (2 ^ cut) }
{
    let half = power_of_two(cut - 1);
    with_sign(sign, ((size + half) >> (cut as u64)) as i64)
}

// n / 2^cut, rounded. `loose` is n's size, and here its last `cut` digits tell.
pub fn rounded_shift(n: i64, cut: u32) -> Rounding
    requires { (nat_abs n < 2 ^ 62) × (0 < cut) × (cut < 63) }
    ensures value { result.value ≡ rounded n (2 ^ cut) }
    ensures mark { whole_at cut result.loose ≡ divides (2 ^ cut) n }
{
    let sign = n < 0;
    let loose = with_sign(sign, n) as u64;
    let value = rounded_with_sign(sign, loose, cut);
    Rounding { value, loose }
}

// Rounding drops the last s digits of the size. They are at most 28, so that the lower word has them all: one `or` joins it, where the whole
// size takes two.
pub fn product(a: i32, b: i32, s: u32) -> Rounding
    requires { Factors s a b }
    ensures value { result.value ≡ product_of s a b }
    ensures mark { whole_at s result.loose ≡ exact_product s a b }
{
    let n = multiply::long_times(magnitude(a), magnitude(b));
    let value = rounded_with_sign((a < 0) != (b < 0), n, s);
    let loose = n & 0xffff_ffff;
    Rounding { value, loose }
}

// 2·m / 2·d, whose divisor has a half. The division rounds towards zero, so that half is added first, away from zero: d, negated where the signs
// differ, has m's sign. The half alone is left over where d divides m; `loose` is 0 then, and 1 otherwise.
pub fn quotient(a: i32, d: i32, s: u32) -> Rounding
    requires { Division s a d }
    ensures value { result.value ≡ quotient_of s a d }
    ensures mark { whole_at s result.loose ≡ exact_quotient s a d }
{
    let m = (a as i64) << (s as i64);
    let e = d as i64;
    let half = with_sign((a < 0) != (d < 0), e);
    let n = m + m + half;
    let by = e + e;
    let value = n / by;
    let loose = if n % by == half { 0u64 } else { 1u64 };
    Rounding { value, loose }
}

// What is asked of the first factor is what callers have shown; the sum would fit without it.
#[tactic(auto, unfolding(crate::specs::Rounded::rounded_up))]
pub fn bound_product(a: u32, b: u32, s: u32) -> u64
    requires { Scale s × (a ≤ 2 ^ 31) }
    ensures { result ≡ bound_product s a b }
{
    let n = multiply::long_times(a, b);
    (n + (power_of_two(s) - 1)) >> (s as u64)
}

#[tactic(auto, unfolding(crate::specs::Rounded::rounded_up))]
pub fn bound_quotient(a: u32, d: u32, s: u32) -> u64
    requires { Scale s × (0 < d) }
    ensures { result ≡ bound_quotient s a d }
{
    let e = d as u64;
    (scaled(a, s) + (e - 1)) / e
}
