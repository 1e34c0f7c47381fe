// The checks of a start and of an end. Neither has counts of words: each is as long as its head.
ghost use Rattle.std.specs.Prelude.{◌≡◌, ◌≤◌, length};
ghost use Rattle.table.specs.Codes.{start_row, end_row};
ghost use Rattle.table.specs.Rule.{Bare};
ghost use Rattle.layout.specs.Fields.{count_of};
ghost use Rattle.refusal.specs.Guard.{numbered, or_else};
ghost use Rattle.faults.specs.Faults.{length_fault, start_fault, end_fault};

use crate::parts;
use refusal::Fault;
use table::Row;

#[tactic(auto, using(crate::proofs::Lengths::bare_length))]
fn bare_fault(b: &[u8], row: Row) -> Result<(), Fault>
    requires { Bare row }
    ensures { numbered result ≡ length_fault row b.now }
{
    if b.len() != row.head {
        return Err(Fault::Length);
    }
    Ok(())
}

// 2; then 4 for a count out of range.
pub fn start_fault(b: &[u8]) -> Result<(), Fault>
    requires { 8 ≤ length b.now }
    ensures { numbered result ≡ or_else (length_fault start_row b.now) (start_fault start_row (count_of b.now)) }
{
    let row = table::row_of(table::START);
    bare_fault(b, row)?;
    let count = row.count;
    parts::range_fault(count, layout::count(b), Fault::Count)
}

// The same count as the start's, and as many formulas (4).
#[tactic(auto, unfolding(crate::specs::Faults::end_fault))]
fn count_fault(seen: u16, count: u16, c: u16) -> Result<(), Fault>
    ensures { numbered result ≡ end_fault seen count c }
{
    if seen != count || c != count {
        return Err(Fault::Count);
    }
    Ok(())
}

// 2; then 4.
pub fn end_fault(b: &[u8], seen: u16, count: u16) -> Result<(), Fault>
    requires { 8 ≤ length b.now }
    ensures { numbered result ≡ or_else (length_fault end_row b.now) (end_fault seen count (count_of b.now)) }
{
    bare_fault(b, table::row_of(table::END))?;
    count_fault(seen, count, layout::count(b))
}
