// The walk over a sheet or a run, record after record, as specs/Walking.antt has it.
#![tactic(auto)]

ghost use Rattle.std.specs.Prelude.{◌≡◌, ◌+◌, ◌<◌, ◌≤◌, length};
ghost use Rattle.word.specs.Words.{Scale};
ghost use Rattle.refusal.specs.Guard.{numbered};
ghost use Rattle.layout.specs.Fields.{code_of, row_for};
ghost use Rattle.walking.specs.Walking.{room_for, begin, after_start, found_by, after_formula, ending, start_record_fault, end_record_fault, other_record_fault, record_fault, fault_at, walk_of, Walkable, Standing};

pub mod sought;

use faults::framing;
use refusal::{Fault, Refusal};
use sought::{Asked, Found};

// Where the walk stands: the next record's place, the place of the record that is asked for, if it was met, the number that is
// asked for, if one is, the least number that the next formula may have, how many formulas there may be, and how many it has seen.
#[derive(Clone, Copy)]
pub struct Walk {
    pub at: usize,
    pub found: Found,
    pub asked: Asked,
    pub next: u32,
    pub count: u16,
    pub seen: u16,
}

// What was walked over without a fault: how many formulas there are, and the place of the one that was asked for.
#[derive(Drop)]
pub struct Whole {
    pub count: u16,
    pub found: Found,
}

#[tactic(auto, using(table::specs::Codes::the_start))]
fn room_for(from: usize) -> u16
    ensures { result ≡ room_for from }
{
    if from == 0 {
        return 0;
    }
    let start = table::row_of(table::START);
    let count = start.count;
    count.most
}

fn begin(from: usize, asked: Asked) -> Walk
    ensures { result ≡ begin from asked }
{
    Walk {
        at: from,
        count: room_for(from),
        seen: 0,
        next: 0,
        asked,
        found: Found::nowhere(),
    }
}

fn after_start(b: &[u8], w: &Walk) -> Walk
    requires { 8 ≤ length b.now }
    ensures { result ≡ after_start b.now w.now }
{
    Walk {
        at: b.len(),
        count: layout::count(b),
        seen: 0,
        next: 0,
        asked: w.asked,
        found: Found::nowhere(),
    }
}

#[tactic(auto, unfolding(crate::specs::Walking::found_by))]
fn found_by(w: &Walk, number: u16) -> Found
    requires { 0 < w.now.at }
    ensures { result ≡ found_by w.now number }
{
    if w.asked.is(number) {
        return Found::at(w.at);
    }
    w.found
}

fn after_formula(b: &[u8], w: &Walk) -> Walk
    requires { (8 ≤ length b.now) × (0 < w.now.at) × (w.now.at + length b.now < 18446744073709551616) × (w.now.seen < 65535) }
    ensures { result ≡ after_formula b.now w.now }
{
    let number = layout::number(b);
    let asked = w.asked;
    let found = found_by(w, number);
    Walk {
        at: w.at + b.len(),
        count: w.count,
        seen: w.seen + 1,
        next: number as u32 + 1,
        asked,
        found,
    }
}

#[tactic(auto, unfolding(crate::specs::Walking::ending))]
fn ending(w: &Walk, place: usize, n: usize) -> Result<Whole, Refusal>
    ensures { result ≡ ending w.now place n }
{
    if place < n {
        return Err(Refusal::new(Fault::Surplus, place));
    }
    Ok(Whole {
        count: w.count,
        found: w.found,
    })
}

// A start: 3 anywhere but at 0; 2; 4; then 6 for the scale.
fn start_fault(b: &[u8], at: usize, s: u32) -> Result<(), Fault>
    requires { 8 ≤ length b.now }
    ensures { numbered result ≡ start_record_fault s b.now at }
{
    if at != 0 {
        return Err(Fault::Kind);
    }
    framing::start_fault(b)?;
    faults::scale_fault(s)
}

// An end: 3 at 0, and anywhere in a run; 2; 4.
fn end_fault(b: &[u8], from: usize, w: &Walk) -> Result<(), Fault>
    requires { 8 ≤ length b.now }
    ensures { numbered result ≡ end_record_fault from b.now w.now }
{
    if w.at == 0 || from != 0 {
        return Err(Fault::Kind);
    }
    framing::end_fault(b, w.seen, w.count)
}

// A formula: 3 at 0; then its own faults.
fn formula_fault(b: &[u8], w: &Walk, s: u32) -> Result<(), Fault>
    requires { (8 ≤ length b.now) × (length b.now ≤ 120) × (¬ (w.now.at ≡ 0) → Scale s) }
    ensures { numbered result ≡ other_record_fault s b.now w.now }
{
    if w.at == 0 {
        return Err(Fault::Kind);
    }
    records::formula_fault(b, w.seen, w.count, w.next, s)
}

#[tactic(auto, using(crate::proofs::Classes::at_start, crate::proofs::Classes::at_end, crate::proofs::Classes::at_other))]
fn record_fault(b: &[u8], code: u16, from: usize, w: &Walk, s: u32) -> Result<(), Fault>
    requires code { code ≡ code_of b.now }
    requires long { (8 ≤ length b.now) × (length b.now ≤ 120) }
    requires scale { ¬ (w.now.at ≡ 0) → Scale s }
    ensures { numbered result ≡ record_fault s from (row_for b.now) b.now w.now }
{
    match code {
        table::START => start_fault(b, w.at, s),
        table::END => end_fault(b, from, w),
        _ => formula_fault(b, w, s),
    }
}

// A run is whole at its last byte. Put into each caller, so that each has a loop of its own: for a sheet, and for a run.
#[inline(always)]
pub fn walk_over(bytes: &[u8], from: usize, asked: Asked, s: u32) -> Result<Whole, Refusal>
    requires { Walkable s from }
    ensures { result ≡ walk_of s bytes.now from asked }
{
    let mut w = begin(from, asked);
    loop {
        if from != 0 && w.at - from == bytes.len() {
            return Ok(Whole {
                count: w.seen,
                found: w.found,
            });
        }
        let at = w.at - from;
        if let Err(fault) = faults::frame_fault(bytes, at) {
            return Err(Refusal::new(fault, w.at));
        }
        let b = layout::record_at(bytes, at);
        let code = layout::code(b);
        if let Err(fault) = record_fault(b, code, from, &w, s) {
            return Err(Refusal::new(fault, w.at));
        }
        match code {
            table::START => {
                w = after_start(b, &w);
            }
            table::END => {
                return ending(&w, w.at + b.len(), bytes.len());
            }
            _ => {
                w = after_formula(b, &w);
            }
        }
    }
}
