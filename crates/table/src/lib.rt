// The table of record kinds, a row for each, as specs/Table.antt has it.
#![tactic(auto)]

ghost use Rattle.std.specs.Prelude.{◌≡◌, map, ◌≤◌};
ghost use Rattle.table.specs.Table.{rows, row_of, pieces_by, length_by};
ghost use Rattle.table.specs.Codes.{code_for};
ghost use Rattle.table.specs.Lines.{line, field_from};
ghost use Rattle.table.specs.Rule.{Ruled};

use formula::Kind;
use multiply::times;

// What a record does in a sheet.
#[derive(Clone, Copy)]
pub enum Class {
    StartRecord,
    FormulaRecord,
    EndRecord,
    Unknown,
}

// A count or a mode, of two bytes: where it stands in its record (0: nowhere), its range, and how many pieces there are
// for each one of it.
#[derive(Clone, Copy)]
pub struct Field {
    pub at: usize,
    pub least: u16,
    pub most: u16,
    pub each: u16,
}

// A record of the kind has `head` bytes, then base + p.each * p + q.each * q pieces of `width` bytes each: a formula's
// words. A p that stands nowhere is the number of pieces by the record's length; a q or a mode that stands nowhere is 0.
// A start and an end have a count, and no pieces.
#[derive(Clone, Copy)]
pub struct Row {
    pub code: u16,
    pub class: Class,
    pub kind: Kind,
    pub head: usize,
    pub width: u16,
    pub base: usize,
    pub p: Field,
    pub q: Field,
    pub mode: Field,
    pub count: Field,
}

// The codes, as the table has them and the search asks for them.
pub const START: u16 = 0x0001;

pub const POLYNOMIAL: u16 = 0x0010;

pub const RATIONAL: u16 = 0x0011;

pub const FRACTION: u16 = 0x0012;

pub const ROOT: u16 = 0x0013;

pub const ODD: u16 = 0x0014;

pub const EVEN: u16 = 0x0015;

pub const END: u16 = 0xffff;

// A row as the table keeps it, its numbers side by side: the prover's work for a constant grows with the structs in it.
// The numbers, from left to right: head, width, base; then at, least, most, each of p; the same four of q; of the mode; of the
// count.
#[derive(Clone, Copy)]
struct Line {
    code: u16,
    class: Class,
    kind: Kind,
    numbers: [u16; 19],
}

// A polynomial's numbers; odd and even ones are laid out as it is.
const POLYNOMIAL_NUMBERS: [u16; 19] = [16, 4, 0, 0, 1, 16, 1, 0, 0, 0, 0, 0, 0, 0, 0, 0, 0, 0, 0];

const ROWS: [Line; 8] = [
    Line {
        code: START,
        class: Class::StartRecord,
        kind: Kind::NoFormula,
        numbers: [8, 0, 0, 0, 0, 0, 0, 0, 0, 0, 0, 0, 0, 0, 0, 6, 1, 64, 0],
    },
    Line {
        code: POLYNOMIAL,
        class: Class::FormulaRecord,
        kind: Kind::Polynomial,
        numbers: POLYNOMIAL_NUMBERS,
    },
    Line {
        code: RATIONAL,
        class: Class::FormulaRecord,
        kind: Kind::Rational,
        numbers: [20, 4, 0, 16, 1, 12, 1, 18, 1, 12, 1, 0, 0, 0, 0, 0, 0, 0, 0],
    },
    Line {
        code: FRACTION,
        class: Class::FormulaRecord,
        kind: Kind::Fraction,
        numbers: [20, 4, 1, 18, 1, 12, 2, 0, 0, 0, 0, 16, 0, 2, 0, 0, 0, 0, 0],
    },
    Line {
        code: ROOT,
        class: Class::FormulaRecord,
        kind: Kind::Root,
        numbers: [16, 4, 0, 0, 0, 0, 0, 0, 0, 0, 0, 0, 0, 0, 0, 0, 0, 0, 0],
    },
    Line {
        code: ODD,
        class: Class::FormulaRecord,
        kind: Kind::Odd,
        numbers: POLYNOMIAL_NUMBERS,
    },
    Line {
        code: EVEN,
        class: Class::FormulaRecord,
        kind: Kind::Even,
        numbers: POLYNOMIAL_NUMBERS,
    },
    Line {
        code: END,
        class: Class::EndRecord,
        kind: Kind::NoFormula,
        numbers: [8, 0, 0, 0, 0, 0, 0, 0, 0, 0, 0, 0, 0, 0, 0, 6, 1, 64, 0],
    },
];

// The row of a code that the table has not.
const UNKNOWN: Line = Line {
    code: 0,
    class: Class::Unknown,
    kind: Kind::NoFormula,
    numbers: [8, 0, 0, 0, 0, 0, 0, 0, 0, 0, 0, 0, 0, 0, 0, 0, 0, 0, 0],
};

// The only function that names the table: a constant is written out, and walked, in each that does.
#[tactic(auto, unfolding(crate::specs::Table::rows))]
fn all_lines() -> [Line; 8]
    ensures { result ≡ map line rows }
{
    ROWS
}

// By the code's name: a choice between constants, and a constant where the code is one.
#[tactic(auto, unfolding(crate::specs::Table::rows, crate::specs::Table::first_row, crate::specs::Table::row_of))]
fn line_of(code: u16) -> Line
    ensures { result ≡ line (row_of code) }
{
    let rows = all_lines();
    match code {
        START => rows[0],
        POLYNOMIAL => rows[1],
        RATIONAL => rows[2],
        FRACTION => rows[3],
        ROOT => rows[4],
        ODD => rows[5],
        EVEN => rows[6],
        END => rows[7],
        _ => UNKNOWN,
    }
}

// The field whose four numbers stand from k on.
fn field_from(numbers: [u16; 19], k: usize) -> Field
    requires { k ≤ 15 }
    ensures { result ≡ field_from numbers k }
{
    Field {
        at: numbers[k] as usize,
        least: numbers[k + 1],
        most: numbers[k + 2],
        each: numbers[k + 3],
    }
}

pub fn row_of(code: u16) -> Row
    ensures { result ≡ row_of code }
{
    let found = line_of(code);
    let class = found.class;
    let kind = found.kind;
    let numbers = found.numbers;
    Row {
        code: found.code,
        class,
        kind,
        head: numbers[0] as usize,
        width: numbers[1],
        base: numbers[2] as usize,
        p: field_from(numbers, 3),
        q: field_from(numbers, 7),
        mode: field_from(numbers, 11),
        count: field_from(numbers, 15),
    }
}

// 0, which no row has, for a kind that is no formula.
#[tactic(auto, unfolding(crate::specs::Table::rows, crate::specs::Table::first_row, crate::specs::Codes::code_for))]
pub fn code_for(kind: Kind) -> u16
    ensures { result ≡ code_for kind }
{
    match kind {
        Kind::Polynomial => POLYNOMIAL,
        Kind::Rational => RATIONAL,
        Kind::Fraction => FRACTION,
        Kind::Root => ROOT,
        Kind::Odd => ODD,
        Kind::Even => EVEN,
        Kind::NoFormula => 0,
    }
}

// How many pieces a record of the row has for two counts in their ranges, and how many bytes.
#[tactic(auto, using(crate::proofs::Rule::few), unfolding(crate::specs::Table::pieces_by))]
pub fn pieces_by(row: Row, p: u16, q: u16) -> usize
    requires ruled { Ruled row }
    requires first { p ≤ row.p.most }
    requires second { q ≤ row.q.most }
    ensures exact { result ≡ pieces_by row p q }
    ensures few { result ≤ 32 }
{
    row.base + (times(row.p.each, p) as usize) + (times(row.q.each, q) as usize)
}

#[tactic(auto, using(crate::proofs::Rule::short))]
pub fn length_by(row: Row, p: u16, q: u16) -> usize
    requires ruled { Ruled row }
    requires first { p ≤ row.p.most }
    requires second { q ≤ row.q.most }
    ensures exact { result ≡ length_by row p q }
    ensures short { result ≤ 120 }
{
    row.head + (times(row.width, pieces_by(row, p, q) as u16) as usize)
}
