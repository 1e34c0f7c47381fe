// One line of a listing, put on a page: a formula's, the count's or a refusal's.
#![tactic(auto)]

ghost use Rattle.std.specs.Prelude.{◌≡◌, ◌+◌, ◌≤◌, length};
ghost use Rattle.layout.specs.Fields.{row_for, formula_of};
ghost use Rattle.text.specs.Text.{Puts};
ghost use Rattle.line.specs.Line.{kind_name, interval_text, line_of, count_line, refusal_line};

use formula::Kind;
use refusal::Refusal;
use text::Page;

fn put_kind(page: &mut Page, kind: Kind)
    requires { page.old.end + 10 ≤ length page.old.out.now }
    ensures same_reference { page.new.out.ghost_name ≡ page.old.out.ghost_name }
    ensures same_length { length page.new.out.now ≡ length page.old.out.now }
    ensures put { Puts page.old.out.now page.old.end (kind_name kind) page.new.out.now page.new.end }
    ensures room { page.new.end ≤ page.old.end + 10 }
{
    match kind {
        Kind::Polynomial => page.put_text(b"polynomial"),
        Kind::Rational => page.put_text(b"rational"),
        Kind::Fraction => page.put_text(b"fraction"),
        Kind::Root => page.put_text(b"root"),
        Kind::Odd => page.put_text(b"odd"),
        Kind::Even => page.put_text(b"even"),
        Kind::NoFormula => {}
    }
}

// Low end and high end.
fn put_interval(page: &mut Page, lo: i32, hi: i32)
    requires { page.old.end + 25 ≤ length page.old.out.now }
    ensures same_reference { page.new.out.ghost_name ≡ page.old.out.ghost_name }
    ensures same_length { length page.new.out.now ≡ length page.old.out.now }
    ensures put { Puts page.old.out.now page.old.end (interval_text lo hi) page.new.out.now page.new.end }
    ensures room { page.new.end ≤ page.old.end + 25 }
{
    page.put_text(b" ");
    page.put_signed(lo);
    page.put_text(b" ");
    page.put_signed(hi);
    page.put_text(b"\n"); // the line's end
}

// The line of a formula record.
#[tactic(auto, using(text::proofs::TextLaws::lengths))]
pub fn put_line(page: &mut Page, b: &[u8])
    requires { (page.old.end + 41 ≤ length page.old.out.now) × (16 ≤ length b.now) }
    ensures same_reference { page.new.out.ghost_name ≡ page.old.out.ghost_name }
    ensures same_length { length page.new.out.now ≡ length page.old.out.now }
    ensures put { Puts page.old.out.now page.old.end (line_of (formula_of (row_for b.now) b.now)) page.new.out.now page.new.end }
    ensures room { page.new.end ≤ page.old.end + 41 }
{
    page.put_decimal(layout::number(b) as usize);
    page.put_text(b" ");
    put_kind(page, table::row_of(layout::code(b)).kind);
    put_interval(page, layout::lo(b), layout::hi(b));
}

#[tactic(auto, using(text::proofs::TextLaws::lengths))]
pub fn put_count(page: &mut Page, count: u16)
    requires { page.old.end + 15 ≤ length page.old.out.now }
    ensures same_reference { page.new.out.ghost_name ≡ page.old.out.ghost_name }
    ensures same_length { length page.new.out.now ≡ length page.old.out.now }
    ensures put { Puts page.old.out.now page.old.end (count_line count) page.new.out.now page.new.end }
    ensures room { page.new.end ≤ page.old.end + 15 }
{
    page.put_text(b"formulas ");
    page.put_decimal(count as usize);
    page.put_text(b"\n");
}

#[tactic(auto, using(text::proofs::TextLaws::lengths))]
pub fn put_refusal(page: &mut Page, r: Refusal)
    requires { page.old.end + 36 ≤ length page.old.out.now }
    ensures same_reference { page.new.out.ghost_name ≡ page.old.out.ghost_name }
    ensures same_length { length page.new.out.now ≡ length page.old.out.now }
    ensures put { Puts page.old.out.now page.old.end (refusal_line r) page.new.out.now page.new.end }
    ensures room { page.new.end ≤ page.old.end + 36 }
{
    page.put_text(b"refused ");
    page.put_decimal(r.number() as usize);
    page.put_text(b" at ");
    page.put_decimal(r.place());
    page.put_text(b"\n");
}
