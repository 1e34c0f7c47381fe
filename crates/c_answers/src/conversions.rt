// Each answer of the library as the struct that C is given.
ghost use Rattle.std.specs.Prelude.{◌≡◌};
ghost use Rattle.c_answers.specs.Answers.{counted, found, mark_of, worked, shown, spanned, written};

use crate::answers::{
    CountedFormulas, Fields, FoundFields, IntervalEnds, ShownValue, WorkedWord, WrittenLength,
};
use desk::answers::Shown;
use door::answer::Ends;
use formula::{Formula, Worked};
use refusal::Refusal;

impl From<Result<u16, Refusal>> for CountedFormulas {
    ghost from_gives = { λ answer given. given ≡ counted answer };

    fn from(answer: Result<u16, Refusal>) -> CountedFormulas {
        match answer {
            Ok(count) => CountedFormulas {
                refused: 0,
                place: 0,
                count,
            },
            Err(r) => CountedFormulas {
                refused: r.number() as u32,
                place: r.place() as u64,
                count: 0,
            },
        }
    }
}

impl From<Result<Formula, Refusal>> for FoundFields {
    ghost from_gives = { λ answer given. given ≡ found answer };

    // A refusal goes back at once: where the two cases met, the formula's fields would be copied once more.
    fn from(answer: Result<Formula, Refusal>) -> FoundFields {
        let formula = match answer {
            Ok(formula) => formula,
            Err(r) => {
                return FoundFields {
                    refused: r.number() as u32,
                    place: r.place() as u64,
                    fields: Fields::none(),
                };
            }
        };
        FoundFields {
            refused: 0,
            place: 0,
            fields: Fields::from(formula),
        }
    }
}

// 1 for exact, 0 for rounded.
fn mark(exact: bool) -> u16
    ensures { result ≡ mark_of exact }
{
    if exact { 1 } else { 0 }
}

impl From<Result<Worked, Refusal>> for WorkedWord {
    ghost from_gives = { λ answer given. given ≡ worked answer };

    fn from(answer: Result<Worked, Refusal>) -> WorkedWord {
        match answer {
            Ok(w) => WorkedWord {
                refused: 0,
                place: 0,
                word: w.word,
                steps: w.steps,
                exact: mark(w.exact),
            },
            Err(r) => WorkedWord {
                refused: r.number() as u32,
                place: r.place() as u64,
                word: 0,
                steps: 0,
                exact: 0,
            },
        }
    }
}

impl From<Result<Shown, Refusal>> for ShownValue {
    ghost from_gives = { λ answer given. given ≡ shown answer };

    fn from(answer: Result<Shown, Refusal>) -> ShownValue {
        match answer {
            Ok(a) => ShownValue {
                refused: 0,
                place: 0,
                value: a.value,
                steps: a.steps,
                exact: mark(a.exact),
            },
            Err(r) => ShownValue {
                refused: r.number() as u32,
                place: r.place() as u64,
                value: 0.0,
                steps: 0,
                exact: 0,
            },
        }
    }
}

impl From<Result<Ends, Refusal>> for IntervalEnds {
    ghost from_gives = { λ answer given. given ≡ spanned answer };

    fn from(answer: Result<Ends, Refusal>) -> IntervalEnds {
        match answer {
            Ok(e) => IntervalEnds {
                refused: 0,
                place: 0,
                low: e.low,
                high: e.high,
            },
            Err(r) => IntervalEnds {
                refused: r.number() as u32,
                place: r.place() as u64,
                low: 0.0,
                high: 0.0,
            },
        }
    }
}

impl From<Result<usize, Refusal>> for WrittenLength {
    ghost from_gives = { λ answer given. given ≡ written answer };

    fn from(answer: Result<usize, Refusal>) -> WrittenLength {
        match answer {
            Ok(n) => WrittenLength {
                refused: 0,
                place: 0,
                length: n as u64,
            },
            Err(r) => WrittenLength {
                refused: r.number() as u32,
                place: r.place() as u64,
                length: 0,
            },
        }
    }
}
