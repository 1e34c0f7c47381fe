// The record writer: 3; 6 for the binary places; 2; 6; 14; 7 or 8; then 12, all at place 0. Only then does it touch the buffer.
#![tactic(auto)]

ghost use Rattle.std.specs.Prelude.{◌≡◌, ◌≤◌, length};
ghost use Rattle.word.specs.Words.{Scale};
ghost use Rattle.table.specs.Table.{row_of};
ghost use Rattle.table.specs.Codes.{code_for};
ghost use Rattle.table.specs.declared.Class.TheVariants.{FormulaRecord};
ghost use Rattle.record_writer.specs.Answers.{buffer_after};
ghost use Rattle.record_writer.specs.RecordWriter.{put_size, put_into, judged_writing, record_writing, bytes_of};

use faults::parts;
use formula::Formula;
use refusal::{Fault, Refusal};

// A record's bytes, copied if the reader's own check has nothing against them and there is room.
fn copy_judged(bytes: &[u8], out: &mut [u8], s: u32) -> Result<usize, Refusal>
    requires { Scale s × (8 ≤ length bytes.now) × (length bytes.now ≤ 120) }
    ensures result { result ≡ judged_writing s bytes.now (length out.old) }
    ensures buffer { out.new ≡ buffer_after result bytes.now out.old }
{
    records::formula_fault(bytes, 0, 1, 0, s)?;
    if out.len() < bytes.len() {
        return Err(Refusal::from(Fault::NoRoom));
    }
    stored::put_bytes(out, 0, bytes);
    Ok(bytes.len())
}

// Puts a formula's record at the front of an array, by the row of its kind's code, and answers its length; none, and nothing put, where a
// count is outside its range.
fn put_by<const CODE: u16>(f: Formula, bytes: &mut [u8; 120]) -> Option<usize>
    requires code { CODE ≡ code_for f.shape.kind }
    requires formula { (row_of CODE).class ≡ FormulaRecord }
    ensures size { result ≡ put_size f }
    ensures bytes { bytes.new ≡ put_into f bytes.old }
{
    let row = table::row_of(CODE);
    let given = f.shape;
    let shape = putting::plain_shape(row, given);
    if parts::count_fault(row, shape.p, shape.q).is_err() {
        return None;
    }
    Some(putting::put_record(row, shape, f, bytes))
}

// The same for any formula, the code of its kind by name: the compiler then has the row's numbers as constants.
fn put_by_kind(f: Formula, code: u16, bytes: &mut [u8; 120]) -> Option<usize>
    requires code { code ≡ code_for f.shape.kind }
    requires formula { (row_of code).class ≡ FormulaRecord }
    ensures size { result ≡ put_size f }
    ensures bytes { bytes.new ≡ put_into f bytes.old }
{
    match code {
        table::POLYNOMIAL => put_by::<{ table::POLYNOMIAL }>(f, bytes),
        table::RATIONAL => put_by::<{ table::RATIONAL }>(f, bytes),
        table::FRACTION => put_by::<{ table::FRACTION }>(f, bytes),
        table::ROOT => put_by::<{ table::ROOT }>(f, bytes),
        table::ODD => put_by::<{ table::ODD }>(f, bytes),
        table::EVEN => put_by::<{ table::EVEN }>(f, bytes),
        // no other code is a formula's
        _ => None,
    }
}

pub fn write_record(f: Formula, out: &mut [u8], s: u32) -> Result<usize, Refusal>
    ensures result { result ≡ record_writing s f (length out.old) }
    ensures buffer { out.new ≡ buffer_after result (bytes_of f) out.old }
{
    let given = f.shape;
    let kind = given.kind;
    let code = table::code_for(kind);
    if code == 0 {
        return Err(Refusal::from(Fault::Kind));
    }
    faults::scale_fault(s)?;
    let mut bytes = [0u8; 120];
    // nothing was put together: a count outside its range is the only cause
    let Some(n) = put_by_kind(f, code, &mut bytes) else {
        return Err(Refusal::from(Fault::Length));
    };
    copy_judged(&bytes[..n], out, s)
}
