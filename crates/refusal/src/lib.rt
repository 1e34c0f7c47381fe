// What a sheet, a formula or a call is refused for, with the paper's number, and the place of the byte that it names.
#![tactic(auto)]

ghost use Rattle.std.specs.Prelude.{◌≡◌};
ghost use Rattle.refusal.specs.Guard.{refusal, number_of};

use std::marker::Model;

// The faults, each by the paper's number.
#[derive(Clone, Copy)]
pub enum Fault {
    BrokenOff = 1,
    Length = 2,
    Kind = 3,
    Count = 4,
    Order = 5,
    Value = 6,
    RangeLeft = 7,
    DivisorZero = 8,
    Surplus = 9,
    Outside = 10,
    Absent = 11,
    NoRoom = 12,
    NotFinite = 13,
    Blank = 14,
    NoSine = 15,
}

impl Fault {
    pub fn number(self) -> u8
        ensures { result ≡ number_of self }
    {
        self as u8
    }
}

// To a clause it is the number and the place. It keeps the number, so that one that is no fault's can be told too.
#[derive(Drop)]
pub struct Refusal {
    number: u8,
    place: usize,
}

impl Model for Refusal {
    ghost use Rattle.refusal.specs.Told.{Told};

    ghost Value = { Told };

    ghost use Rattle.refusal.specs.Guard.{refusal};

    ghost view = { λ r. refusal r.place r.number };
}

impl Refusal {
    pub fn new(fault: Fault, place: usize) -> Refusal
        ensures { result ≡ refusal place (number_of fault) }
    {
        Refusal::told(fault.number(), place)
    }

    pub fn told(number: u8, place: usize) -> Refusal
        ensures { result ≡ refusal place number }
    {
        Refusal { number, place }
    }

    pub fn number(&self) -> u8
        ensures { result ≡ self.now.number }
    {
        self.number
    }

    pub fn place(&self) -> usize
        ensures { result ≡ self.now.place }
    {
        self.place
    }
}

// A refusal that names no byte has place 0.
impl From<Fault> for Refusal {
    ghost from_gives = { λ f r. r ≡ refusal 0 (number_of f) };

    fn from(fault: Fault) -> Refusal {
        Refusal::new(fault, 0)
    }
}
