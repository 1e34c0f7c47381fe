// Why admission refuses a formula.
#![tactic(auto)]

ghost use Rattle.std.specs.Prelude.{◌≡◌, Err};
ghost use Rattle.refusal.specs.Guard.{number_of};
ghost use Rattle.admission.specs.Admission.{admission_number};

use refusal::Fault;

#[derive(Drop)]
pub enum NotAdmitted {
    RangeLeft,
    DivisorZero,
}

impl From<NotAdmitted> for Fault {
    ghost from_gives = { λ refused fault. number_of fault ≡ admission_number (Err refused) };

    fn from(refused: NotAdmitted) -> Fault {
        match refused {
            NotAdmitted::RangeLeft => Fault::RangeLeft,
            NotAdmitted::DivisorZero => Fault::DivisorZero,
        }
    }
}
