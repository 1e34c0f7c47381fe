// The sheet writer: one pass over the run to check it, by the reader's own walk, and one to copy it.
#![tactic(auto)]

ghost use Rattle.std.specs.Prelude.{◌≡◌, ◌+◌, ◌≤◌, length};
ghost use Rattle.std.proofs.lemmas.List.Edits.{sets};
ghost use Rattle.word.specs.Words.{Scale};
ghost use Rattle.record_writer.specs.Answers.{buffer_after};
ghost use Rattle.sheet_writer.specs.SheetWriter.{added, run_walked, sheet_bytes, whole_writing, sheet_writing, sheet_of};

use refusal::{Fault, Refusal};
use walking::Whole;
use walking::sought::Asked;

fn put_sheet(out: &mut [u8], run: &[u8], count: u16)
    requires { length run.now + added ≤ length out.old }
    ensures { out.new ≡ sets out.old 0 (sheet_bytes count run.now) }
{
    let start = table::row_of(table::START);
    putting::put_framing(out, 0, start, count);
    stored::put_bytes(out, start.head, run);
    putting::put_framing(
        out,
        start.head + run.len(),
        table::row_of(table::END),
        count,
    );
}

// The run as it will stand in the sheet, behind the start.
fn walk_run(run: &[u8], s: u32) -> Result<Whole, Refusal>
    requires { Scale s }
    ensures { result ≡ run_walked s run.now }
{
    walking::walk_over(run, table::row_of(table::START).head, Asked::none(), s)
}

// What a start and an end add to a run.
fn added() -> usize
    ensures { (result ≡ added) × (result ≤ 16) }
{
    table::row_of(table::START).head + table::row_of(table::END).head
}

// A run of so many formulas, put into a sheet where the buffer has room for it.
fn write_whole(run: &[u8], count: u16, out: &mut [u8]) -> Result<usize, Refusal>
    ensures result { result ≡ whole_writing (length run.now) (length out.old) }
    ensures buffer { out.new ≡ buffer_after result (sheet_bytes count run.now) out.old }
{
    let n = run.len() + added();
    if out.len() < n {
        return Err(Refusal::from(Fault::NoRoom));
    }
    put_sheet(out, run, count);
    Ok(n)
}

pub fn write_sheet(run: &[u8], out: &mut [u8], s: u32) -> Result<usize, Refusal>
    ensures result { result ≡ sheet_writing s run.now (length out.old) }
    ensures buffer { out.new ≡ buffer_after result (sheet_of s run.now) out.old }
{
    faults::scale_fault(s)?;
    if run.is_empty() {
        return Err(Refusal::from(Fault::Count));
    }
    let whole = walk_run(run, s)?;
    write_whole(run, whole.count, out)
}
