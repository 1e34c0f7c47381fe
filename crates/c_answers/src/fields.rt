// A formula as the fields that C sees, and back. The codes of the kinds are those of the table of records.
ghost use Rattle.std.specs.Prelude.{◌≡◌};
ghost use Rattle.c_answers.specs.Fields.{fields_of, no_fields, formula_by};

use crate::answers::Fields;
use formula::{Formula, Shape};

impl From<Formula> for Fields {
    ghost from_gives = { λ f fields. fields ≡ fields_of f };

    fn from(f: Formula) -> Fields {
        let shape = f.shape;
        let kind = shape.kind;
        let words = f.words;
        Fields {
            kind: table::code_for(kind),
            number: f.number,
            lo: f.lo,
            hi: f.hi,
            p: shape.p,
            q: shape.q,
            mode: shape.mode,
            words,
        }
    }
}

impl Fields {
    // Every field 0: those of a refusal.
    #[tactic(auto, unfolding(layout::specs::Fields::padded))]
    pub fn none() -> Fields
        ensures { result ≡ no_fields }
    {
        Fields {
            kind: 0,
            number: 0,
            lo: 0,
            hi: 0,
            p: 0,
            q: 0,
            mode: 0,
            words: [0i32; 32],
        }
    }
}

// A code that is no formula's has a row with the kind NoFormula.
impl From<Fields> for Formula {
    ghost from_gives = { λ fields f. f ≡ formula_by fields };

    fn from(fields: Fields) -> Formula {
        let row = table::row_of(fields.kind);
        let kind = row.kind;
        let words = fields.words;
        Formula {
            number: fields.number,
            shape: Shape {
                kind,
                p: fields.p,
                q: fields.q,
                mode: fields.mode,
            },
            lo: fields.lo,
            hi: fields.hi,
            words,
        }
    }
}
