// The layout of a sheet's records: the fields of one record, read from the record's own bytes by the row of its kind; a record cut
// out of a sheet.
#![tactic(auto)]

ghost use Rattle.std.specs.Prelude.{◌≡◌, [], ◌+◌, ◌≤◌, length};
ghost use Rattle.stored.specs.Words.{values};
ghost use Rattle.table.specs.Rule.{Ruled};
ghost use Rattle.layout.specs.Fields.{bytes_at, Reaches, code_of, count_of, formula_number, lo_of, hi_of, first_count, field_of, shape_of, words_of, padded, formula_of, Complete};

use formula::{Formula, Shape};
use table::{Field, Row};

// The record that stands at a place of a sheet.
#[tactic(auto, unfolding(crate::specs::Fields::bytes_at))]
pub fn record_at(s: &[u8], at: usize) -> &[u8]
    requires { Reaches s.now at }
    ensures { result.now ≡ bytes_at s.now at }
{
    let e = at + stored::get4(s, at) as usize;
    &s[at..e]
}

// The code of the record's kind.
pub fn code(b: &[u8]) -> u16
    requires { 8 ≤ length b.now }
    ensures { result ≡ code_of b.now }
{
    stored::get2(b, 4)
}

// A start's or an end's count.
pub fn count(b: &[u8]) -> u16
    requires { 8 ≤ length b.now }
    ensures { result ≡ count_of b.now }
{
    stored::get2(b, 6)
}

// A formula's number, and the ends of its interval.
pub fn number(b: &[u8]) -> u16
    requires { 8 ≤ length b.now }
    ensures { result ≡ formula_number b.now }
{
    stored::get2(b, 6)
}

pub fn lo(b: &[u8]) -> i32
    requires { 16 ≤ length b.now }
    ensures { result ≡ lo_of b.now }
{
    stored::get_word(b, 8)
}

pub fn hi(b: &[u8]) -> i32
    requires { 16 ≤ length b.now }
    ensures { result ≡ hi_of b.now }
{
    stored::get_word(b, 12)
}

#[tactic(auto, unfolding(crate::specs::Fields::first_count))]
fn first_count(b: &[u8], row: Row) -> u16
    requires { Ruled row × (row.head ≤ length b.now) × (length b.now ≤ 120) }
    ensures { result ≡ first_count row b.now }
{
    if row.p.at == 0 {
        return ((b.len() - row.head) / 4) as u16;
    }
    stored::get2(b, row.p.at)
}

#[tactic(auto, unfolding(crate::specs::Fields::field_of))]
fn field_of(b: &[u8], field: Field) -> u16
    requires { field.at + 2 ≤ length b.now }
    ensures { result ≡ field_of field b.now }
{
    if field.at == 0 {
        return 0;
    }
    stored::get2(b, field.at)
}

#[tactic(auto, unfolding(crate::specs::Fields::shape_of))]
pub fn shape_of(b: &[u8], row: Row) -> Shape
    requires { Ruled row × (row.head ≤ length b.now) × (length b.now ≤ 120) }
    ensures { result ≡ shape_of row b.now }
{
    let kind = row.kind;
    let q = row.q;
    let mode = row.mode;
    Shape {
        kind,
        p: first_count(b, row),
        q: field_of(b, q),
        mode: field_of(b, mode),
    }
}

// The words of a formula record, which stand behind its head.
#[tactic(auto, using(crate::proofs::Complete::words_behind))]
pub fn words(b: &[u8], row: Row) -> &[[u8; 4]]
    requires { Complete row b.now }
    ensures { values result.now ≡ words_of row b.now }
{
    stored::words(&b[row.head..])
}

// Their values, into an array of zeros.
#[tactic(auto, using(crate::proofs::Padded::turn))]
fn fill_words(words: &[[u8; 4]], out: &mut [i32; 32])
    requires { (length words.now ≤ 32) × (out.old ≡ padded []) }
    ensures { out.new ≡ padded (values words.now) }
{
    for (i, word) in words.iter().enumerate() {
        out[i] = stored::value(word);
    }
}

// The whole formula, for a caller that asks for it: the only place where a record's words are copied.
#[tactic(auto, using(crate::proofs::Complete::array_holds), unfolding(crate::specs::Fields::formula_of, crate::specs::Fields::padded))]
pub fn formula_of(b: &[u8], row: Row) -> Formula
    requires { Complete row b.now }
    ensures { result ≡ formula_of row b.now }
{
    let shape = shape_of(b, row);
    let mut copied = [0i32; 32];
    fill_words(words(b, row), &mut copied);
    Formula {
        number: number(b),
        shape,
        lo: lo(b),
        hi: hi(b),
        words: copied,
    }
}
