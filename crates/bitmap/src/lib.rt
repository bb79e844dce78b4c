// Translated from boreal's boreal/src/bitmaps.rs (MIT OR Apache-2.0), commit 7010b5e967; see NOTICE.
#![tactic(auto)]

ghost use Rattle.std.specs.Prelude.{◌≡◌, false, not, ◌||◌, ◌/◌, ◌%◌, ◌≤◌, eqb};
ghost use Rattle.bitmap.specs.Bitmap.{bit, tally, has, Holds, size};

// A set of bytes, one bit each.
#[derive(Clone, Copy, Debug, PartialEq, Eq)]
pub struct Bitmap {
    pub words: [u64; Bitmap::WORDS],
}

impl Bitmap {
    pub const WORDS: usize = 4;

    pub fn new() -> Self
        ensures { Holds result (λ v. false) }
    {
        Self {
            words: [0u64; Self::WORDS],
        }
    }

    pub fn get(self, b: u8) -> bool
        ensures { result ≡ has self b }
    {
        let i = usize::from(b / 64);
        let word = self.words[i];
        (word >> (b % 64)) % 2 == 1
    }

    pub fn with(mut self, b: u8) -> Self
        ensures { Holds result (λ v. eqb v b || has self v) }
    {
        let i = usize::from(b / 64);
        let word = self.words[i];
        self.words[i] = word | (1u64 << (b % 64));
        self
    }

    pub fn invert(self) -> Self
        ensures { Holds result (λ v. not (has self v)) }
    {
        Self {
            words: self.words.map(|w| !w),
        }
    }

    pub fn union(self, other: Self) -> Self
        ensures { Holds result (λ v. has self v || has other v) }
    {
        Self {
            words: std::array::from_fn(|i| self.words[i] | other.words[i]),
        }
    }

    pub fn count(self) -> u32
        ensures { result ≡ size self }
    {
        self.words.iter().map(|w| word_count(*w)).sum()
    }

    // The bytes whose low half is that of `x`.
    pub fn low_half(x: u8) -> Self
        ensures { Holds result (λ v. eqb (v % 16) (x % 16)) }
    {
        Self {
            words: [0x0001_0001_0001_0001u64 << (x % 16); Self::WORDS],
        }
    }

    // The bytes whose high half is the low half of `x`.
    pub fn high_half(x: u8) -> Self
        ensures { Holds result (λ v. eqb (v / 16) (x % 16)) }
    {
        let mut words = [0u64; Self::WORDS];
        let i = usize::from(x % 16 / 4);
        words[i] = 0xFFFFu64 << (x % 4 * 16);
        Self { words }
    }

    pub fn all_but(b: u8) -> Self
        ensures { Holds result (λ v. not (eqb v b)) }
    {
        Bitmap::new().with(b).invert()
    }
}

fn word_count(w: u64) -> u32
    ensures { (result ≡ tally (bit w) 64) × (result ≤ 64) }
{
    w.count_ones()
}
