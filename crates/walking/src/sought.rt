// The number that a walk looks for, if it looks for one, and the place where it was found, if it was: each an `Option` to a clause, and a
// single number to the machine, so that a record costs no more for it.
ghost use Rattle.std.specs.Prelude.{◌≡◌, ◌<◌, Some, None};
ghost use Rattle.walking.specs.Sought.{is_asked, number_asked};

use std::marker::Model;

// Above every number: none is asked for.
const NO_NUMBER: u32 = 65536;

#[derive(Clone, Copy)]
pub struct Asked {
    number: u32,
}

impl Model for Asked {
    ghost use Rattle.std.specs.Prelude.{ℕ, Option};

    ghost Value = { Option ℕ };

    ghost use Rattle.walking.specs.Sought.{number_asked, asked_by};

    ghost view = { λ a. number_asked a.number };

    ghost inverse = { λ o. record { number = asked_by o } };
}

impl Asked {
    pub fn none() -> Asked
        ensures { result ≡ None }
    {
        Asked { number: NO_NUMBER }
    }

    pub fn number(number: u16) -> Asked
        ensures { result ≡ Some number }
    {
        Asked {
            number: number as u32,
        }
    }

    // A number of 32 bits, as a caller may have it: 65536 asks for none, and one above it no formula has.
    pub fn of(number: u32) -> Asked
        ensures { result ≡ number_asked number }
    {
        Asked { number }
    }

    pub fn is(self, number: u16) -> bool
        ensures { result ≡ is_asked self number }
    {
        self.number == number as u32
    }
}

// No formula stands at 0.
#[derive(Clone, Copy)]
pub struct Found {
    place: usize,
}

impl Model for Found {
    ghost use Rattle.std.specs.Prelude.{ℕ, Option};

    ghost Value = { Option ℕ };

    ghost use Rattle.walking.specs.Sought.{place_found, found_at};

    ghost view = { λ f. place_found f.place };

    ghost inverse = { λ o. record { place = found_at o } };
}

impl Found {
    pub fn nowhere() -> Found
        ensures { result ≡ None }
    {
        Found { place: 0 }
    }

    pub fn at(place: usize) -> Found
        requires { 0 < place }
        ensures { result ≡ Some place }
    {
        Found { place }
    }

    pub fn place(self) -> Option<usize>
        ensures { result ≡ self }
    {
        if self.place == 0 {
            return None;
        }
        Some(self.place)
    }
}
