// The board: a whole sheet, a number and an argument in; an answer or a numbered refusal out.
#![tactic(auto)]

ghost use Rattle.std.specs.Prelude.{◌≡◌};
ghost use Rattle.board.specs.Board.{evaluated};

use formula::Worked;
use refusal::Refusal;
use sheet::reader;

pub fn evaluate(s: &[u8], number: u16, x: i32, places: u32) -> Result<Worked, Refusal>
    ensures { result ≡ evaluated places s.now number x }
{
    let place = reader::formula_place(s, number, places)?;
    answering::answer_of(layout::record_at(s, place), x, places)
}
