// Multiplication: of 16 by 16 bits, as the controller has it, and of 32 by 32 bits, made of that. Besides, only places are
// multiplied, by the size of what is counted, which is a shift.
#![tactic(auto)]

ghost use Rattle.std.specs.Prelude.{◌≡◌, ◌+◌, ◌*◌, ◌/◌, ◌%◌, ◌^◌, ◌<◌};
ghost use Rattle.multiply.specs.Halves.{OfHalves, halves_of, middle_and_low};

// The upper and the lower 16 binary digits of a number.
#[derive(Drop)]
struct Halves {
    high: u16,
    low: u16,
}

// The one place where a number is cut into halves.
fn split(a: u32) -> Halves
    ensures halves { result ≡ halves_of a }
    ensures below { (result.high < 2 ^ 16) × (result.low < 2 ^ 16) }
{
    Halves {
        high: (a >> 16) as u16,
        low: (a & 0xffff) as u16,
    }
}

// a·b, both below 2^16 by their types.
pub fn times(a: u16, b: u16) -> u32
    ensures { result ≡ a * b }
{
    (a as u32) * (b as u32)
}

// The upper 32 bits of the four products together: what is carried goes from half to half, by sums that 32 bits hold.
fn upper_word(high: u32, first: u32, second: u32, low: u32) -> u32
    requires { OfHalves high × OfHalves first × OfHalves second }
    ensures { result ≡ high + middle_and_low first second low / 2 ^ 32 }
{
    let carry = split(first + u32::from(split(low).high));
    let last = split(second + u32::from(carry.low));
    high + u32::from(carry.high) + u32::from(last.high)
}

// The lower 32 bits: what a sum carries beyond them is in the upper ones. A compiler may recognise both words of a product in these
// forms, and put the halves together again: docs/DECISIONS.md.
fn lower_word(first: u32, second: u32, low: u32) -> u32
    ensures { result ≡ middle_and_low first second low % 2 ^ 32 }
{
    let middle = first.wrapping_add(second);
    (middle << 16).wrapping_add(low)
}

// a·b from the four products of their halves.
pub fn long_times(a: u32, b: u32) -> u64
    ensures { result ≡ a * b }
{
    let x = split(a);
    let y = split(b);
    let first = times(x.high, y.low);
    let second = times(x.low, y.high);
    let low = times(x.low, y.low);
    let upper = upper_word(times(x.high, y.high), first, second, low);
    (u64::from(upper) << 32) + u64::from(lower_word(first, second, low))
}
