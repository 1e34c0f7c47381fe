// A record's bytes, put into a buffer: a formula's, without the fields that its kind has not, and those of a start and of an end.
#![tactic(auto)]

ghost use Rattle.std.specs.Prelude.{◌≡◌, ◌+◌, ◌*◌, ◌≤◌, length};
ghost use Rattle.std.proofs.lemmas.List.Edits.{sets};
ghost use Rattle.table.specs.Table.{length_by};
ghost use Rattle.table.specs.Rule.{Ruled};
ghost use Rattle.table.specs.Order.{Ordered};
ghost use Rattle.putting.specs.Plain.{kept, plain_shape, plain_by};
ghost use Rattle.putting.specs.Bytes.{front_bytes, framing_bytes, head_bytes, field_bytes, fields_bytes, word_bytes, record_bytes, Ready};

use formula::{Formula, Shape};
use table::{Field, Row};

#[tactic(auto, unfolding(crate::specs::Plain::kept))]
fn kept(field: Field, n: u16) -> u16
    ensures { result ≡ kept field n }
{
    if field.most == 0 {
        return 0;
    }
    n
}

// The shape with the counts and the mode that its kind has not at 0.
#[tactic(auto, unfolding(crate::specs::Plain::plain_shape))]
pub fn plain_shape(row: Row, shape: Shape) -> Shape
    ensures { result ≡ plain_shape row shape }
{
    let kind = shape.kind;
    let p = row.p;
    let q = row.q;
    let mode = row.mode;
    Shape {
        kind,
        p: kept(p, shape.p),
        q: kept(q, shape.q),
        mode: kept(mode, shape.mode),
    }
}

// What every record begins with: length, kind, and number or count.
#[tactic(auto, unfolding(crate::specs::Bytes::front_bytes, stored::specs::Numbers::bytes2, stored::specs::Numbers::bytes4))]
fn put_front(out: &mut [u8], at: usize, n: u32, code: u16, number: u16)
    requires { at + 8 ≤ length out.old }
    ensures { out.new ≡ sets out.old at (front_bytes n code number) }
{
    stored::put4(out, at, n);
    stored::put2(out, at + 4, code);
    stored::put2(out, at + 6, number);
}

// A start or an end.
pub fn put_framing(out: &mut [u8], at: usize, row: Row, count: u16)
    requires ruled { Ruled row }
    requires room { at + 8 ≤ length out.old }
    ensures { out.new ≡ sets out.old at (framing_bytes row count) }
{
    put_front(out, at, row.head as u32, row.code, count);
}

#[tactic(auto, unfolding(crate::specs::Bytes::front_bytes, crate::specs::Bytes::head_bytes, stored::specs::Numbers::bytes2, stored::specs::Numbers::bytes4))]
fn put_head(out: &mut [u8], n: u32, code: u16, number: u16, lo: i32, hi: i32)
    requires { 16 ≤ length out.old }
    ensures { out.new ≡ sets out.old 0 (head_bytes n code number lo hi) }
{
    put_front(out, 0, n, code, number);
    stored::put_word(out, 8, lo);
    stored::put_word(out, 12, hi);
}

#[tactic(auto, unfolding(crate::specs::Bytes::field_bytes))]
fn put_field(out: &mut [u8], field: Field, n: u16)
    requires { field.at + 2 ≤ length out.old }
    ensures { out.new ≡ sets out.old field.at (field_bytes field n) }
{
    if field.at != 0 {
        stored::put2(out, field.at, n);
    }
}

#[tactic(auto, using(crate::proofs::PutLaws::fields_put))]
fn put_fields(out: &mut [u8], row: Row, shape: Shape)
    requires { Ruled row × Ordered row × (20 ≤ length out.old) }
    ensures { out.new ≡ sets out.old 16 (fields_bytes row shape) }
{
    let mode = row.mode;
    put_field(out, mode, shape.mode);
    let p = row.p;
    put_field(out, p, shape.p);
    let q = row.q;
    put_field(out, q, shape.q);
}

// The words, from a place on.
#[tactic(auto, using(crate::proofs::RecordLaws::turn), unfolding(crate::specs::Bytes::word_bytes))]
fn put_words(out: &mut [u8], at: usize, words: &[i32])
    requires { at + 4 * length words.now ≤ length out.old }
    ensures { out.new ≡ sets out.old at (word_bytes words.now) }
{
    for (i, word) in words.iter().enumerate() {
        stored::put_word(out, at + 4 * i, *word);
    }
}

// The record's bytes at the start of the buffer, and their number.
#[tactic(auto, using(crate::proofs::PutLaws::first_counts, crate::proofs::PutLaws::second_counts, crate::proofs::PutLaws::reach, crate::proofs::PutLaws::all_put, stored::proofs::Back::back))]
pub fn put_record(row: Row, shape: Shape, f: Formula, out: &mut [u8; 120]) -> usize
    requires shape { shape ≡ plain_shape row f.shape }
    requires ready { Ready row (plain_by row f) }
    ensures size { (result ≡ length_by row shape.p shape.q) × (result ≤ 120) }
    ensures bytes { out.new ≡ sets out.old 0 (record_bytes row (plain_by row f)) }
{
    let m = table::pieces_by(row, shape.p, shape.q);
    let n = table::length_by(row, shape.p, shape.q);
    put_head(out, n as u32, row.code, f.number, f.lo, f.hi);
    put_fields(out, row, shape);
    put_words(out, row.head, &f.words[..m]);
    n
}
