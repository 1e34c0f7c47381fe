// A formula of any kind: its shape, and what it answers over the words that stand in bytes.
#![tactic(auto)]

ghost use Rattle.std.specs.Prelude.{◌≡◌, ◌<◌, length};
ghost use Rattle.word.specs.Exact.{whole_at};
ghost use Rattle.root.specs.Root.{Rootable, root_word, exact_root};
ghost use Rattle.root.specs.Heron.{rooted_by};
ghost use Rattle.stored.specs.Words.{values};
ghost use Rattle.formula.specs.Formula.{most_of, worked, worked_of, word_count, Answerable};

use word::Marked;

// A formula's kind. `NoFormula` is the kind of a record that is no formula.
#[derive(Clone, Copy)]
pub enum Kind {
    Polynomial,
    Rational,
    Fraction,
    Root,
    Odd,
    Even,
    NoFormula,
}

// What a formula's stored words mean: p is the count of a polynomial, odd and even ones included, the numerator's count or the
// depth; q is the divisor's count.
#[derive(Clone, Copy)]
pub struct Shape {
    pub kind: Kind,
    pub p: u16,
    pub q: u16,
    pub mode: u16,
}

// A decoded formula: its words stand in stored order. A field that its kind has not is 0, and so is each word past the last.
#[derive(Drop)]
pub struct Formula {
    pub number: u16,
    pub shape: Shape,
    pub lo: i32,
    pub hi: i32,
    pub words: [i32; 32],
}

// What a formula answers: the word, and beside it the steps of Heron's rule to a root, the last one included, of which the other kinds take
// none; and whether the word is exact, that is, no product or quotient was rounded, and of a root its square is the scaled argument.
#[derive(Drop)]
pub struct Worked {
    pub word: i32,
    pub steps: u16,
    pub exact: bool,
}

// The larger of |lo| and |hi|.
pub fn most_of(lo: i32, hi: i32) -> u32
    ensures { result ≡ most_of lo hi }
{
    let a = word::magnitude(lo);
    let b = word::magnitude(hi);
    if a < b { b } else { a }
}

// Here what the operations left loose is looked at.
fn without_steps(a: Marked, s: u32) -> Worked
    requires { s < 64 }
    ensures { result ≡ worked a.word 0 (whole_at s a.loose) }
{
    Worked {
        word: a.word,
        steps: 0,
        exact: word::is_whole(a.loose, s),
    }
}

fn root_with_steps(x: i32, s: u32) -> Worked
    requires { Rootable s x }
    ensures { result ≡ worked (root_word s x) (rooted_by s x).steps (exact_root s x) }
{
    let r = root::root(x, s);
    Worked {
        word: r.root as i32,
        steps: r.steps,
        exact: r.exact,
    }
}

// The answer at x of the formula of these words.
pub fn answer(words: &[[u8; 4]], shape: Shape, x: i32, s: u32) -> Worked
    requires { (length words.now ≡ word_count shape.kind shape.p shape.q) × Answerable s shape (values words.now) x }
    ensures { result ≡ worked_of s shape (values words.now) x }
{
    match shape.kind {
        Kind::Polynomial => without_steps(polynomial::answer(words, x, s), s),
        Kind::Rational => {
            let p = shape.p as usize;
            without_steps(rational::answer(&words[..p], &words[p..], x, s), s)
        }
        Kind::Fraction => without_steps(fraction::answer(words, shape.mode as u32, x, s), s),
        Kind::Root => root_with_steps(x, s),
        Kind::Odd => without_steps(odd_even::odd(words, x, s), s),
        Kind::Even => without_steps(odd_even::even(words, x, s), s),
        Kind::NoFormula => without_steps(Marked { word: 0, loose: 0 }, s),
    }
}
