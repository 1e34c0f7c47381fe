// Admission of continued fractions over the stored words b0, a1, b1, a2, ..: of m words the depth is m / 2.
#![tactic(auto)]

ghost use Rattle.std.specs.Prelude.{◌≡◌, ◌/◌, ◌%◌, ◌^◌, ◌≤◌, length};
ghost use Rattle.stored.specs.Words.{values};
ghost use Rattle.admission.specs.Admission.{Judged};
ghost use Rattle.fraction.specs.Admission.{admit_inner, fraction_admission};
ghost use Rattle.fraction_admission.specs.Terms.{judged_term, TermAsked, AdmissionAsked};

use admission::NotAdmitted;

// The least size of b + a·v/d (0: it may reach 0), where |v| is at most `v` and |d| at least l; none where the range may be left.
fn term_bound(a: i32, b: i32, v: u32, l: u32, s: u32) -> Option<u32>
    requires { TermAsked s l }
    ensures { result ≡ judged_term s a b v l }
{
    let size = word::magnitude(a);
    if word::LARGEST < size as u64 {
        return None;
    }
    let g = word::bound_product(size, v, s);
    if word::LARGEST < g {
        return None;
    }
    let q = word::bound_quotient(g as u32, l, s);
    let c = word::magnitude(b) as u64;
    if word::LARGEST < c + q {
        return None;
    }
    if c <= q {
        return Some(0);
    }
    Some((c - q) as u32)
}

// From the innermost term outward: `first` bounds |v_1|, `rest` the others.
fn admit_inner(words: &[[u8; 4]], first: u32, rest: u32, s: u32) -> Result<(), NotAdmitted>
    requires odd { length words.now % 2 ≡ 1 }
    requires asked { AdmissionAsked s (length words.now / 2) }
    ensures { Judged (values words.now) (admit_inner s first rest (values words.now) (length words.now / 2)) result }
{
    let k = words.len() / 2;
    let mut l = word::magnitude(stored::value(&words[2 * k]));
    if word::LARGEST < l as u64 {
        return Err(NotAdmitted::RangeLeft);
    }
    for i in (0..k).rev() {
        if l == 0 {
            return Err(NotAdmitted::DivisorZero);
        }
        let a = stored::value(&words[2 * i + 1]);
        let b = stored::value(&words[2 * i]);
        let Some(least) = term_bound(a, b, fraction::at(first, rest, i), l, s) else {
            return Err(NotAdmitted::RangeLeft);
        };
        l = least;
    }
    Ok(())
}

// `most` is the larger of |lo| and |hi|.
pub fn admit(words: &[[u8; 4]], mode: u32, most: u32, s: u32) -> Result<(), NotAdmitted>
    requires odd { length words.now % 2 ≡ 1 }
    requires asked { AdmissionAsked s (length words.now / 2) }
    requires most { most ≤ 2 ^ 31 }
    ensures { Judged (values words.now) (fraction_admission s most mode (values words.now) (length words.now / 2)) result }
{
    let mut rest = most;
    if mode != 0 {
        let square = word::bound_product(most, most, s);
        if word::LARGEST < square {
            return Err(NotAdmitted::RangeLeft);
        }
        rest = square as u32;
    }
    admit_inner(words, fraction::first_of(mode, most, rest), rest, s)
}
