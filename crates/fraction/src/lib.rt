// Continued fractions b0 + a1·v1/(b1 + a2·v2/(b2 + ..)) over the stored words b0, a1, b1, a2, ..: of m words the depth is m / 2.
#![tactic(auto)]

ghost use Rattle.std.specs.Prelude.{◌≡◌, true, cond, length, ◌&&◌, ◌/◌};
ghost use Rattle.word.specs.Words.{Word, Scale, product_of};
ghost use Rattle.word.specs.Exact.{exact_product, whole_at};
ghost use Rattle.stored.specs.Words.{values};
ghost use Rattle.fraction.specs.Fraction.{at, first_of, rest_of, next_of, outward, fraction_of};
ghost use Rattle.fraction.specs.Exact.{step_exact, outward_exact, square_used, fraction_exact};
ghost use Rattle.fraction.specs.Ready.{StepReady, OutwardReady, FractionReady};

use word::Marked;

// v_(i + 1), or its bound: the first one, or one of the rest.
pub fn at<T: Copy>(first: T, rest: T, i: usize) -> T
    ensures { result ≡ at first rest i }
{
    if i == 0 { first } else { rest }
}

// b plus the quotient of (the product of a and v) by t, and the `loose` of both.
fn next(a: i32, b: i32, v: i32, t: i32, s: u32) -> Marked
    requires { StepReady s a b v t }
    ensures word { result.word ≡ next_of s a b v t }
    ensures mark { whole_at s result.loose ≡ step_exact s a v t }
{
    let g = word::product(a, v, s);
    let q = word::quotient(g.value as i32, t, s);
    let word = ((b as i64) + q.value) as i32;
    let loose = g.loose | q.loose;
    Marked { word, loose }
}

// From t, the word at depth j, outward to the answer; each step's `loose` is joined to the one that is handed in. The remaining depth j falls by one.
// LLVM makes a loop of the calls.
fn outward(words: &[[u8; 4]], j: usize, t: i32, loose: u64, first: i32, rest: i32, s: u32) -> Marked
    requires { OutwardReady s first rest (values words.now) j t }
    ensures word { result.word ≡ outward s first rest (values words.now) j t }
    ensures mark { whole_at s result.loose ≡ (whole_at s loose && outward_exact s first rest (values words.now) j t) }
{
    if j == 0 {
        return Marked { word: t, loose };
    }
    let i = j - 1;
    let a = stored::value(&words[2 * i + 1]);
    let b = stored::value(&words[2 * i]);
    let u = next(a, b, at(first, rest, i), t, s);
    outward(words, i, u.word, loose | u.loose, first, rest, s)
}

// v1, of x and its square, or its bound, of their bounds.
pub fn first_of<T: Copy>(mode: u32, x: T, square: T) -> T
    ensures { result ≡ first_of mode x square }
{
    if mode == 1 { square } else { x }
}

// The other v's: x, or its square with its `loose`.
fn rest_of(mode: u32, x: i32, s: u32) -> Marked
    requires { Scale s × Word x × Word (rest_of mode x (product_of s x x)) }
    ensures word { result.word ≡ rest_of mode x (product_of s x x) }
    ensures mark { whole_at s result.loose ≡ rest_of mode true (exact_product s x x) }
{
    if mode == 0 {
        return Marked { word: x, loose: 0 };
    }
    let q = word::product(x, x, s);
    let word = q.value as i32;
    Marked {
        word,
        loose: q.loose,
    }
}

// What of the square's `loose` counts: all of it where the rule uses the square, in mode 2 from depth 2 on.
fn counted(mode: u32, k: usize, loose: u64) -> u64
    ensures { result ≡ cond (square_used mode k) loose 0 }
{
    match mode {
        0 => 0,
        1 => loose,
        _ => if 1 < k { loose } else { 0 },
    }
}

// The fraction at x, and the `loose` of all that it uses.
pub fn answer(words: &[[u8; 4]], mode: u32, x: i32, s: u32) -> Marked
    requires { FractionReady s mode (values words.now) (length words.now / 2) x }
    ensures word { result.word ≡ fraction_of s mode (values words.now) (length words.now / 2) x }
    ensures mark { whole_at s result.loose ≡ fraction_exact s mode (values words.now) (length words.now / 2) x }
{
    let k = words.len() / 2;
    let rest = rest_of(mode, x, s);
    let first = first_of(mode, x, rest.word);
    let loose = counted(mode, k, rest.loose);
    let t = stored::value(&words[2 * k]);
    outward(words, k, t, loose, first, rest.word, s)
}
