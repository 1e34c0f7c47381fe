// Numbers and bytes in a slice of bytes, a number with the lowest byte first: read at a place, and stored at one. Bytes are put together by
// shifts: nothing multiplies, as the library's own `from_le_bytes` and `as_chunks` do.
#![tactic(auto)]

ghost use Rattle.std.specs.Prelude.{◌≡◌, ◌+◌, ◌<◌, ◌≤◌, ◌/◌, ◌%◌, length};
ghost use Rattle.std.proofs.lemmas.List.Edits.{sets};
ghost use Rattle.std.specs.Int.{w32};
ghost use Rattle.std.proofs.Common.{to_z};
ghost use Rattle.stored.specs.Words.{value, values, words};
ghost use Rattle.stored.specs.Numbers.{number2, number4, word4, bytes2, bytes4, pattern};

#[tactic(auto, unfolding(crate::specs::Numbers::number2))]
pub fn get2(s: &[u8], at: usize) -> u16
    requires { at + 2 ≤ length s.now }
    ensures { result ≡ number2 s.now at }
{
    s[at] as u16 + ((s[at + 1] as u16) << 8)
}

#[tactic(auto, unfolding(crate::specs::Numbers::number4))]
pub fn get4(s: &[u8], at: usize) -> u32
    requires { at + 4 ≤ length s.now }
    ensures { result ≡ number4 s.now at }
{
    s[at] as u32
        + ((s[at + 1] as u32) << 8)
        + ((s[at + 2] as u32) << 16)
        + ((s[at + 3] as u32) << 24)
}

pub fn get_word(s: &[u8], at: usize) -> i32
    requires { at + 4 ≤ length s.now }
    ensures { result ≡ word4 s.now at }
{
    get4(s, at).cast_signed()
}

// A word by its own four bytes.
pub fn value(word: &[u8; 4]) -> i32
    ensures { result ≡ value word.now }
{
    get_word(word, 0)
}

// The words that bytes hold.
pub fn words(bytes: &[u8]) -> &[[u8; 4]]
    requires { length bytes.now % 4 ≡ 0 }
    ensures count { length result.now ≡ length bytes.now / 4 }
    ensures values { values result.now ≡ words bytes.now 0 (length bytes.now / 4) }
{
    unsafe { bytes.as_chunks_unchecked::<4>() }
}

// The two bytes of n at a position, the lower first.
pub fn put2(out: &mut [u8], at: usize, n: u16)
    requires { at + 2 ≤ length out.old }
    ensures { out.new ≡ sets out.old at (bytes2 n) }
{
    out[at..at + 2].copy_from_slice(&n.to_le_bytes());
}

pub fn put4(out: &mut [u8], at: usize, n: u32)
    requires { at + 4 ≤ length out.old }
    ensures { out.new ≡ sets out.old at (bytes4 n) }
{
    out[at..at + 4].copy_from_slice(&n.to_le_bytes());
}

pub fn put_word(out: &mut [u8], at: usize, x: i32)
    requires { at + 4 ≤ length out.old }
    ensures { out.new ≡ sets out.old at (bytes4 (pattern x)) }
{
    put4(out, at, x.cast_unsigned());
}

// Byte by byte: for a length that it doesn't know, the compiler makes `memmove` of `copy_from_slice`, which a board's C may not have.
#[tactic(auto, using(crate::proofs::StoreLaws::turn))]
pub fn put_bytes(out: &mut [u8], at: usize, bytes: &[u8])
    requires { at + length bytes.now ≤ length out.old }
    ensures { out.new ≡ sets out.old at bytes.now }
{
    for (i, byte) in bytes.iter().enumerate() {
        out[at + i] = *byte;
    }
}
