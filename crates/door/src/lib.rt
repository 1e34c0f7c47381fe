// The door for doubles, at s binary places: a double is taken as a word, and a word is shown as a double.
#![tactic(auto)]

ghost use Rattle.std.specs.Prelude.{◌≡◌};
ghost use Rattle.word.specs.Words.{Scale};
ghost use Rattle.door.specs.Exact.{Exactly};
ghost use Rattle.door.specs.Taken.{as_word, taken_of};

pub mod answer; // answer.rt: the struct `Ends`

use answer::Ends;
use refusal::Fault;
use word::Argument;

// The largest word and the least.
const LARGEST: i64 = word::LARGEST as i64;

const LEAST: i64 = -LARGEST;

// The number z with its mark, if it is a word.
fn as_word(z: i64, exact: bool) -> Result<Argument, Fault>
    ensures { result ≡ as_word z exact }
{
    if z < LEAST || LARGEST < z {
        return Err(Fault::Outside);
    }
    let word = z as i32;
    Ok(Argument { word, exact })
}

// A double's value times 2^s, rounded to a word, and whether nothing was rounded; or why there is no word.
// A double with the exponent field f has 53 digits, counted in units of 2^(f - 1075); that is 2^(e - 1075) steps, with e = f + s.
// From e = 1075 on it is 2^52 steps or more. Below e = 1022 it is less than half a step: zeros and subnormal doubles,
// which have no leading digit, are among these. Of them a zero alone, all of whose bits but the sign are 0, is a whole number of steps.
pub fn taken(x: f64, s: u32) -> Result<Argument, Fault>
    requires { Scale s }
    ensures { result ≡ taken_of s x }
{
    if x != x {
        return Err(Fault::NotFinite);
    }
    let b = f64::to_bits(x);
    let sign = b >> 63 == 1;
    let exponent = ((b >> 52) & 0x7ff) as u32;
    let fraction = b & 0xf_ffff_ffff_ffff;
    if exponent == 0x7ff {
        return Err(Fault::NotFinite);
    }
    let e = exponent + s;
    if 1075 <= e {
        return Err(Fault::Outside);
    }
    if e < 1022 {
        return Ok(Argument {
            word: 0,
            exact: b << 1 == 0,
        });
    }
    let n = word::with_sign(sign, (fraction | 0x10_0000_0000_0000) as i64);
    let cut = 1075 - e;
    let r = word::rounded_shift(n, cut);
    as_word(r.value, word::is_whole(r.loose, cut))
}

// A word as a double, w / 2^s; zero as plus zero. Both numbers are doubles, and so is their quotient: nothing is rounded.
pub fn shown(w: i32, s: u32) -> f64
    requires { Scale s }
    ensures { Exactly s w result }
{
    (w as f64) / ((1u32 << s) as f64)
}

// The two ends of an interval, each exactly.
pub fn ends(lo: i32, hi: i32, s: u32) -> Ends
    requires { Scale s }
    ensures low { Exactly s lo result.low }
    ensures high { Exactly s hi result.high }
{
    let low = shown(lo, s);
    let high = shown(hi, s);
    Ends { low, high }
}
