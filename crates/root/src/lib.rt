// The root of a word at s binary places, by Heron's rule, the number of its steps, and whether it is exact.
#![tactic(auto)]

ghost use Rattle.std.specs.Prelude.{◌≡◌, ◌<◌, ◌^◌};
ghost use Rattle.root.specs.Root.{Rootable, exact_root};
ghost use Rattle.root.specs.Heron.{start, next, rooted, heron_of, rooted_by};

// A root, and the steps of Heron's rule to it, the last one included.
#[derive(Drop)]
pub struct Rooted {
    pub root: u64,
    pub steps: u16,
}

// The same for a word, and whether the root's square is the scaled word.
#[derive(Drop)]
pub struct MarkedRoot {
    pub root: u32,
    pub steps: u16,
    pub exact: bool,
}

// The first step of Heron's rule, from w = 2^half, where `half` is half the number of v's binary digits, rounded up. To divide by w is to shift.
fn first_step(v: u64) -> u32
    requires { v < 2 ^ 60 }
    ensures { result ≡ next v (start v) }
{
    let b = 64 - u64::leading_zeros(v);
    let half = (b + 1) / 2;
    ((1u32 << half) + (v >> half) as u32) / 2
}

// Heron's rule for v. The start is above the root, so the first step always falls, and stands before the loop.
// The rule ends when the new number, (w + q) / 2, is not below w; that is so exactly when q is not below w.
// It cannot wait for two numbers that agree: just below a square they swing between two for ever, as for 8 between 2 and 3.
// `less` is w - 1, in 32 bits: so the divisor `less + 1` is short, and a compiler that knows the sum not to wrap need not test it for 0.
fn heron(v: u64) -> Rooted
    requires { v < 2 ^ 60 }
    ensures { result ≡ heron_of v }
{
    if v == 0 {
        return Rooted { root: 0, steps: 0 };
    }
    let mut less = first_step(v) - 1;
    let mut steps = 1u16;
    loop {
        let w = (less + 1) as u64;
        let q = v / w;
        steps += 1;
        if w <= q {
            break Rooted { root: w, steps };
        }
        less = ((w + q) / 2 - 1) as u32;
    }
}

// The root of x at s binary places, with its steps and its mark: v is x·2^s.
pub fn root(x: i32, s: u32) -> MarkedRoot
    requires { Rootable s x }
    ensures rooted { rooted result.root result.steps ≡ rooted_by s x }
    ensures mark { result.exact ≡ exact_root s x }
{
    let v = word::scaled(x as u32, s);
    let r = heron(v);
    let root = r.root as u32;
    MarkedRoot {
        root,
        steps: r.steps,
        exact: multiply::long_times(root, root) == v,
    }
}
