// A page: text in ASCII, put into a lent buffer from a place on, words and numbers in decimal, each behind what was put before.
#![tactic(auto)]

ghost use Rattle.std.specs.Prelude.{◌≡◌, ◌+◌, ◌≤◌, length, take};
ghost use Rattle.text.specs.Text.{decimal, signed, Puts};

pub struct Page<'a> {
    pub out: &'a mut [u8],
    pub end: usize,
}

impl<'a> Page<'a> {
    pub fn new(out: &'a mut [u8], at: usize) -> Page<'a>
        ensures same_reference { result.out.ghost_name ≡ out.entry.ghost_name }
        ensures buffer { result.out.now ≡ out.old }
        ensures end { result.end ≡ at }
    {
        Page { out, end: at }
    }

    pub fn put_text(&mut self, text: &[u8])
        requires { self.old.end + length text.now ≤ length self.old.out.now }
        ensures same_reference { self.new.out.ghost_name ≡ self.old.out.ghost_name }
        ensures same_length { length self.new.out.now ≡ length self.old.out.now }
        ensures put { Puts self.old.out.now self.old.end text.now self.new.out.now self.new.end }
    {
        stored::put_bytes(self.out, self.end, text);
        self.end += text.len();
    }

    // The digits in front of the last one are those of n / 10.
    #[tactic(auto, using(crate::proofs::TextLaws::digits))]
    pub fn put_decimal(&mut self, n: usize)
        requires { self.old.end + length (decimal n) ≤ length self.old.out.now }
        ensures same_reference { self.new.out.ghost_name ≡ self.old.out.ghost_name }
        ensures same_length { length self.new.out.now ≡ length self.old.out.now }
        ensures put { Puts self.old.out.now self.old.end (decimal n) self.new.out.now self.new.end }
    {
        if n < 10 {
            self.put_text(&[48 + n as u8]);
            return;
        }
        self.put_decimal(n / 10);
        self.put_text(&[48 + (n % 10) as u8]);
    }

    // A sign and at most ten digits.
    #[tactic(auto, using(crate::proofs::TextLaws::lengths))]
    pub fn put_signed(&mut self, x: i32)
        requires { self.old.end + 11 ≤ length self.old.out.now }
        ensures same_reference { self.new.out.ghost_name ≡ self.old.out.ghost_name }
        ensures same_length { length self.new.out.now ≡ length self.old.out.now }
        ensures put { Puts self.old.out.now self.old.end (signed x) self.new.out.now self.new.end }
        ensures room { self.new.end ≤ self.old.end + 11 }
    {
        if x < 0 {
            self.put_text(b"-");
        }
        self.put_decimal(word::magnitude(x) as usize);
    }

    // What stands in the buffer up to the page's end.
    pub fn text(&self) -> &[u8]
        requires { self.now.end ≤ length self.now.out.now }
        ensures { result.now ≡ take self.now.end self.now.out.now }
    {
        &self.out[..self.end]
    }
}

impl Drop for Page<'_> {
    fn drop(self)
        ensures { self.exit.0.now ≡ self.entry.out.now }
    {
        let Page { out: _, end: _ } = self;
    }
}
