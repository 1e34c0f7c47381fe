// The library as C calls it: include/valvepigeon.h. A slice is a pointer and a length there.
#![tactic(auto)]

ghost use Rattle.std.specs.Prelude.{◌≡◌, length};
ghost use Rattle.sheet.specs.Reader.{formula_count, formula_read};
ghost use Rattle.board.specs.Board.{evaluated};
ghost use Rattle.turn.specs.Sine.{sine_of, cosine_of};
ghost use Rattle.desk.specs.Desk.{evaluated_double};
ghost use Rattle.record_writer.specs.Answers.{buffer_after};
ghost use Rattle.record_writer.specs.RecordWriter.{record_writing, bytes_of};
ghost use Rattle.sheet_writer.specs.SheetWriter.{sheet_writing, sheet_of};
ghost use Rattle.c_answers.specs.Fields.{formula_by};
ghost use Rattle.c_answers.specs.Answers.{counted, found, worked, ShownBy, SpannedBy, written};
ghost use Rattle.valvepigeon.specs.Places.{places};

use c_answers::answers::{
    CountedFormulas, Fields, FoundFields, IntervalEnds, ShownValue, WorkedWord, WrittenLength,
};
use formula::Formula;
use sheet::reader;

// A word stands for w / 2^24; the layers below take the binary places from here.
const PLACES: u32 = 24;

#[unsafe(no_mangle)]
pub extern "C" fn vp_count(sheet: &[u8]) -> CountedFormulas
    ensures { result ≡ counted (formula_count places sheet.now) }
{
    CountedFormulas::from(reader::formula_count(sheet, PLACES))
}

#[unsafe(no_mangle)]
pub extern "C" fn vp_formula(sheet: &[u8], number: u16) -> FoundFields
    ensures { result ≡ found (formula_read places sheet.now number) }
{
    FoundFields::from(reader::read_formula(sheet, number, PLACES))
}

#[unsafe(no_mangle)]
pub extern "C" fn vp_evaluate(sheet: &[u8], number: u16, argument: i32) -> WorkedWord
    ensures { result ≡ worked (evaluated places sheet.now number argument) }
{
    WorkedWord::from(board::evaluate(sheet, number, argument, PLACES))
}

#[unsafe(no_mangle)]
#[tactic(auto, using(c_answers::proofs::DoubleLaws::shown_by))]
pub extern "C" fn vp_evaluate_double(sheet: &[u8], number: u16, argument: f64) -> ShownValue
    ensures { ShownBy places (evaluated_double places sheet.now number argument) result }
{
    ShownValue::from(desk::evaluate_double(sheet, number, argument, PLACES))
}

#[unsafe(no_mangle)]
#[tactic(auto, using(c_answers::proofs::DoubleLaws::spans_by))]
pub extern "C" fn vp_interval(sheet: &[u8], number: u16) -> IntervalEnds
    ensures { SpannedBy places (formula_read places sheet.now number) result }
{
    IntervalEnds::from(desk::interval(sheet, number, PLACES))
}

#[unsafe(no_mangle)]
pub extern "C" fn vp_sine(sheet: &[u8], number: u16, angle: u32) -> WorkedWord
    ensures { result ≡ worked (sine_of places sheet.now number angle) }
{
    WorkedWord::from(turn::sine(sheet, number, angle, PLACES))
}

#[unsafe(no_mangle)]
pub extern "C" fn vp_cosine(sheet: &[u8], number: u16, angle: u32) -> WorkedWord
    ensures { result ≡ worked (cosine_of places sheet.now number angle) }
{
    WorkedWord::from(turn::cosine(sheet, number, angle, PLACES))
}

#[unsafe(no_mangle)]
pub extern "C" fn vp_write_record(fields: Fields, out: &mut [u8]) -> WrittenLength
    ensures result { result ≡ written (record_writing places (formula_by fields) (length out.old)) }
    ensures buffer { out.new ≡ buffer_after (record_writing places (formula_by fields) (length out.old)) (bytes_of (formula_by fields)) out.old }
{
    WrittenLength::from(record_writer::write_record(Formula::from(fields), out, PLACES))
}

#[unsafe(no_mangle)]
pub extern "C" fn vp_write_sheet(run: &[u8], out: &mut [u8]) -> WrittenLength
    ensures result { result ≡ written (sheet_writing places run.now (length out.old)) }
    ensures buffer { out.new ≡ buffer_after (sheet_writing places run.now (length out.old)) (sheet_of places run.now) out.old }
{
    WrittenLength::from(sheet_writer::write_sheet(run, out, PLACES))
}
