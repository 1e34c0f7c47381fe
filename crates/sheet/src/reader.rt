// The reader: a sheet's formula count, and the whole decoded formula of a number. One pass over the sheet each.
ghost use Rattle.std.specs.Prelude.{◌≡◌};
ghost use Rattle.table.specs.declared.Class.TheVariants.{FormulaRecord};
ghost use Rattle.records.specs.Sheets.{RecordOf};
ghost use Rattle.sheet.specs.Reader.{formula_count, formula_place, formula_in, formula_read};

use formula::Formula;
use refusal::{Fault, Refusal};
use walking::sought::Asked;

#[tactic(auto, unfolding(crate::specs::Reader::formula_count))]
pub fn formula_count(s: &[u8], places: u32) -> Result<u16, Refusal>
    ensures { result ≡ formula_count places s.now }
{
    let whole = walking::walk_over(s, 0, Asked::none(), places)?;
    Ok(whole.count)
}

// Where the formula's record stands: for a caller that reads its fields itself.
#[tactic(auto, unfolding(crate::specs::Reader::formula_place))]
pub fn formula_place(s: &[u8], number: u16, places: u32) -> Result<usize, Refusal>
    ensures { result ≡ formula_place places s.now number }
{
    let whole = walking::walk_over(s, 0, Asked::number(number), places)?;
    let found = whole.found;
    match found.place() {
        Some(place) => Ok(place),
        None => Err(Refusal::from(Fault::Absent)),
    }
}

fn formula_in(b: &[u8]) -> Formula
    requires { RecordOf FormulaRecord b.now }
    ensures { result ≡ formula_in b.now }
{
    layout::formula_of(b, table::row_of(layout::code(b)))
}

#[tactic(auto, unfolding(crate::specs::Reader::formula_read))]
pub fn read_formula(s: &[u8], number: u16, places: u32) -> Result<Formula, Refusal>
    ensures { result ≡ formula_read places s.now number }
{
    let place = formula_place(s, number, places)?;
    Ok(formula_in(layout::record_at(s, place)))
}
