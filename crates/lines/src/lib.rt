// The listing: the formula count and a line for each formula, or why there is none.
#![tactic(auto)]

ghost use Rattle.std.specs.Prelude.{◌≡◌, ◌++◌, ◌+◌, ◌*◌, ◌≤◌, length, drop};
ghost use Rattle.stored.specs.Numbers.{number4};
ghost use Rattle.sheet.specs.Reader.{formula_count};
ghost use Rattle.text.specs.Text.{Puts};
ghost use Rattle.lines.specs.Listing.{places, lines_from, listing};

use sheet::reader;
use text::Page;

// A listing is of a sheet at so many binary places.
const PLACES: u32 = 24;

// The sheet has been accepted: its records are not checked again.
fn put_lines(page: &mut Page, s: &[u8], count: u16)
    requires { (formula_count places s.now ≡ Ok count) × (page.old.end + 41 * count ≤ length page.old.out.now) }
    ensures same_reference { page.new.out.ghost_name ≡ page.old.out.ghost_name }
    ensures same_length { length page.new.out.now ≡ length page.old.out.now }
    ensures put { Puts page.old.out.now page.old.end (lines_from count s.now (number4 s.now 0)) page.new.out.now page.new.end }
    ensures room { page.new.end ≤ page.old.end + 41 * count }
{
    let mut place = layout::record_at(s, 0).len();
    for _ in 0..count {
        let b = layout::record_at(s, place);
        line::put_line(page, b);
        place += b.len();
    }
}

// A listing has fewer than 4,096 characters: at most 15, and 41 for each of at most 64 formulas.
fn put_listing(page: &mut Page, s: &[u8])
    requires { page.old.end + 4096 ≤ length page.old.out.now }
    ensures same_reference { page.new.out.ghost_name ≡ page.old.out.ghost_name }
    ensures same_length { length page.new.out.now ≡ length page.old.out.now }
    ensures put { Puts page.old.out.now page.old.end (listing s.now) page.new.out.now page.new.end }
    ensures room { page.new.end ≤ page.old.end + 4096 }
{
    if 8192 < s.len() {
        page.put_text(b"too long\n");
        return;
    }
    match reader::formula_count(s, PLACES) {
        Ok(count) => {
            line::put_count(page, count);
            put_lines(page, s, count);
        }
        Err(r) => line::put_refusal(page, r),
    }
}

// The text at the start of the buffer, and its length. The buffer is longer than any listing.
pub fn list_sheet(s: &[u8], out: &mut [u8; 4096]) -> usize
    ensures text { (result ≡ length (listing s.now)) × (out.new ≡ listing s.now ++ drop result out.old) }
    ensures fits { (result ≤ 4096) × (length out.new ≡ 4096) }
{
    let mut page = Page::new(out, 0);
    put_listing(&mut page, s);
    page.text().len()
}
