// The checks of a record's parts: here its frame and the binary places, in `framing` a start and an end, in `parts` what a formula
// record is made of. specs/Faults.antt says them by the paper's numbers, 0 for none.
#![tactic(auto)]

ghost use Rattle.std.specs.Prelude.{◌≡◌, ◌≤◌, length};
ghost use Rattle.refusal.specs.Guard.{numbered};
ghost use Rattle.faults.specs.Faults.{frame_fault, scale_fault};

pub mod framing;
pub mod parts;

use refusal::Fault;

// Whether a record stands at a place: 1 or 2.
#[tactic(auto, unfolding(crate::specs::Faults::frame_fault))]
pub fn frame_fault(s: &[u8], at: usize) -> Result<(), Fault>
    requires { at ≤ length s.now }
    ensures { numbered result ≡ frame_fault s.now at }
{
    let left = s.len() - at;
    if left < 4 {
        return Err(Fault::BrokenOff);
    }
    let n = stored::get4(s, at) as usize;
    if n < 8 || 120 < n {
        return Err(Fault::Length);
    }
    if left < n {
        return Err(Fault::BrokenOff);
    }
    Ok(())
}

// 6 for binary places that no board has.
#[tactic(auto, unfolding(crate::specs::Faults::scale_fault))]
pub fn scale_fault(s: u32) -> Result<(), Fault>
    ensures { numbered result ≡ scale_fault s }
{
    if s < 16 || 28 < s {
        return Err(Fault::Value);
    }
    Ok(())
}
