// Translated from boreal's boreal/src/matcher/literals.rs (MIT OR Apache-2.0), commit 7010b5e967; see NOTICE.
// The bytes that one token entry takes: which, how many, and number j of them.
#![tactic(auto)]

ghost use Rattle.std.specs.Prelude.{◌≡◌, ◌≤◌, ◌<◌, length, get_or};
ghost use Rattle.bitmap.specs.Bitmap.{Holds};
ghost use Rattle.def_picking.specs.Literals.{taken, is_plain};
ghost use Rattle.classes.specs.Entry.{entry_at, token_of};
ghost use Rattle.classes.specs.Classes.{passes, gapped};

use bitmap::Bitmap;

// What an entry stands for. A class has the bytes other than the value, or those with its low half as their low or high half, or all without these.
// `??` and `~??` are no classes, and Other is for jumps, alternatives and list marks.
#[derive(Clone, Copy, Debug, PartialEq, Eq)]
pub enum Entry {
    Byte(u8),
    NotByte(u8),
    Low(u8),
    High(u8),
    Any(u8),
    NotLow(u8),
    NotHigh(u8),
    NotAny(u8),
    Other,
}

impl From<[u32; 4]> for Entry {
    ghost from_gives = { λ ws e. token_of e ≡ entry_at ws };

    fn from([kind, value, mask, _]: [u32; 4]) -> Self {
        // A remainder fits: try_from would have an error to answer. Kinds and masks are numbers in the words of a lent pool, and cases from here on.
        let x = (value % 256) as u8;
        match (kind, mask) {
            (0, _) => Entry::Byte(x),
            (1, _) => Entry::NotByte(x),
            (2, 0) => Entry::Low(x),
            (2, 1) => Entry::High(x),
            (2, _) => Entry::Any(x),
            (3, 0) => Entry::NotLow(x),
            (3, 1) => Entry::NotHigh(x),
            (3, _) => Entry::NotAny(x),
            _ => Entry::Other,
        }
    }
}

impl Entry {
    // The bytes of a class; none for any other entry.
    pub fn class(self) -> Bitmap
        ensures { Holds result (passes (token_of self)) }
    {
        match self {
            Entry::NotByte(x) => Bitmap::all_but(x),
            Entry::Low(x) => Bitmap::low_half(x),
            Entry::High(x) => Bitmap::high_half(x),
            Entry::NotLow(x) => Bitmap::low_half(x).invert(),
            Entry::NotHigh(x) => Bitmap::high_half(x).invert(),
            Entry::Byte(_) | Entry::Any(_) | Entry::NotAny(_) | Entry::Other => Bitmap::new(),
        }
    }

    // How many bytes the entry takes.
    pub fn count(self) -> usize
        ensures { (result ≡ length (taken (token_of self))) × (result ≤ 256) }
    {
        match self {
            Entry::Byte(_) => 1,
            // usize has no From of a u32.
            _ => self.class().count() as usize,
        }
    }

    // Byte number j of those that the entry takes, told without a walk through them: each literal asks it of each of its classes. As one of them it fits,
    // so that casts lose nothing, and try_from would have an error to answer.
    pub fn at(self, j: usize) -> u8
        requires { j < length (taken (token_of self)) }
        ensures { result ≡ get_or (taken (token_of self)) j 0 }
    {
        match self {
            Entry::Byte(x) => x,
            Entry::NotByte(x) => past_gap(j, usize::from(x), 1) as u8,
            Entry::Low(x) => (16 * j + usize::from(x % 16)) as u8,
            Entry::High(x) => (16 * usize::from(x % 16) + j) as u8,
            // 15 of each 16.
            Entry::NotLow(x) => (16 * (j / 15) + past_gap(j % 15, usize::from(x % 16), 1)) as u8,
            // All but 16 in a row.
            Entry::NotHigh(x) => past_gap(j, 16 * usize::from(x % 16), 16) as u8,
            Entry::Any(_) | Entry::NotAny(_) | Entry::Other => 0,
        }
    }

    pub fn is_plain(self) -> bool
        ensures { result ≡ is_plain (token_of self) }
    {
        !matches!(self, Entry::Any(_) | Entry::NotAny(_) | Entry::Other)
    }
}

// Number j of the numbers from 0 on without `gap` of them, from `from` on.
fn past_gap(j: usize, from: usize, gap: usize) -> usize
    requires { (j ≤ 256) × (gap ≤ 16) }
    ensures { result ≡ gapped j from gap }
{
    if j < from { j } else { j + gap }
}
