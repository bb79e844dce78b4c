// Bytes and numbers as text, written into lent bytes. A writer lays down what fits and always counts on to the place after all of its bytes, so that no
// caller has to ask for room on the way: who made it compares the last place with the buffer's length. (`write!` says what was written only where it
// answers Ok, clause `writes` of fmt::Write::write_fmt, and no clause says when it does; `Writes` says it of every call.)
#![tactic(auto)]

ghost use Rattle.std.specs.Prelude.{◌≡◌, ◌*◌, ◌<◌, length};
ghost use mathlib.Core.List.{[], ◌∷◌, flat_map};
ghost use Rattle.printing.specs.Numbers.{digit, hex_of, decimal_of};

// Lent bytes, and the place where the next byte goes.
#[derive(Drop)]
pub struct Writer<'a> {
    pub out: &'a mut [u8],
    pub at: usize,
}

// What a letter has more than the value for which it stands.
const UPPER: u8 = b'A' - 10;

fn digit_of(d: u8) -> u8
    requires { d < 16 }
    ensures { result ≡ digit d }
{
    if d < 10 { b'0' + d } else { UPPER + d }
}

impl<'a> Writer<'a> {
    ghost use Rattle.printing.specs.Writing.{Room, Writes};

    // From the buffer's start.
    pub fn new(out: &'a mut [u8]) -> Writer<'a>
        ensures same { result.out.ghost_name ≡ out.entry.ghost_name }
        ensures lent { result.out.now ≡ out.old }
        ensures start { result.at ≡ 0 }
    {
        Writer { out, at: 0 }
    }

    // The place after all that was written, whether it fits or not.
    pub fn place(&self) -> usize
        ensures { result ≡ self.now.at }
    {
        self.at
    }

    pub fn put_byte(&mut self, b: u8)
        requires { Room self.old 1 }
        ensures { Writes self.old (b ∷ []) self.new }
    {
        if self.at < self.out.len() {
            self.out[self.at] = b;
        }
        self.at += 1;
    }

    // The bytes as they are.
    pub fn put_bytes(&mut self, s: &[u8])
        requires { Room self.old (length s.now) }
        ensures { Writes self.old s.now self.new }
    {
        let at = self.at;
        let end = self.out.len();
        if at < end {
            let n = s.len().min(end - at);
            self.out[at..at + n].copy_from_slice(&s[..n]);
        }
        self.at += s.len();
    }

    // Two upper-case digits.
    pub fn put_hex(&mut self, b: u8)
        requires { Room self.old 2 }
        ensures { Writes self.old (hex_of b) self.new }
    {
        self.put_byte(digit_of(b / 16));
        self.put_byte(digit_of(b % 16));
    }

    // A byte string in digits, without blanks.
    pub fn put_hexes(&mut self, s: &[u8])
        requires { Room self.old (2 * length s.now) }
        ensures { Writes self.old (flat_map hex_of s.now) self.new }
    {
        for b in s {
            self.put_hex(*b);
        }
    }

    // Decimal digits; the calls go as deep as there are digits, 20 at most.
    pub fn put_decimal(&mut self, n: usize)
        requires { Room self.old 20 }
        ensures { Writes self.old (decimal_of n) self.new }
    {
        if n >= 10 {
            self.put_decimal(n / 10);
        }
        // `as`: the remainder is below 10, and no From makes a number narrower.
        self.put_byte(digit_of((n % 10) as u8));
    }
}
