// An angle's quarter, and how far it is into it.
ghost use Rattle.std.specs.Prelude.{◌≡◌};
ghost use Rattle.turn.specs.Angles.{quarter_of, rest_of, folded_in};

// An angle is a 32-bit part of a turn; this is a quarter of one.
pub const QUARTER: u32 = 0x4000_0000;

// The two top bits.
pub fn quarter(angle: u32) -> u32
    ensures { result ≡ quarter_of angle }
{
    angle >> 30
}

// f, the other 30 bits, and 2^30 - f in quarters 1 and 3.
pub fn folded(angle: u32) -> u32
    ensures { result ≡ folded_in (quarter_of angle) (rest_of angle) }
{
    let f = angle % QUARTER;
    if quarter(angle) % 2 == 1 {
        QUARTER - f
    } else {
        f
    }
}
