// What every door shares: the limits, and the numbered refusals with their places.
#![tactic(auto)]

ghost use Rattle.std.specs.Prelude.{◌≡◌};
ghost use Rattle.base.specs.Refusals.{number_of};

// The limits of 01 and 02, each with the refusal that is given above it. The bytes of a text: 1.
pub const TEXT_LIMIT: usize = 4096;

// The tokens of a text: 11.
pub const TOKEN_LIMIT: usize = 512;

// The levels of its lists: 10.
pub const LEVEL_LIMIT: usize = 8;

// A number in a jump: 3.
pub const NUMBER_LIMIT: u64 = 4294967295;

// A jump in alternatives: 8.
pub const INNER_JUMP_LIMIT: u32 = 200;

// A jump that is compiled: 12. Two that are merged have no more together.
pub const JUMP_LIMIT: u32 = 65535;

// The nodes of a branch: 14.
pub const BRANCH_LIMIT: usize = 255;

// The nodes of a program: 13.
pub const NODE_LIMIT: usize = 512;

// The literals of a slice: 17.
pub const LITERAL_LIMIT: usize = 256;

// The combinations of a slice, which is skipped above it.
pub const COMBINATION_LIMIT: usize = 256;

// The words of a pool that are lent for tokens.
pub const TOKEN_POOL: usize = 4096;

// The same for a program.
pub const NODE_POOL: usize = 512;

// The entries that a pool for tokens holds, of four words each.
pub const ENTRY_LIMIT: usize = TOKEN_POOL / 4;

// The bytes that the listing program lends for literals.
pub const LENT_BYTES: usize = 32768;

// The lengths that it lends for them.
pub const LENT_LENGTHS: usize = 256;

// Why a call gives no answer, with the number under which 01's table has it. Names are the original's where it has the case.
#[derive(Clone, Copy, Debug, PartialEq, Eq)]
pub enum Refusal {
    TextTooLong = 1,
    Unexpected = 2,
    NumberTooBig = 3,
    JumpEmpty = 4,
    JumpRangeInvalid = 5,
    JumpAtBound = 6,
    JumpUnboundedInAlternation = 7,
    JumpTooBigInAlternation = 8,
    CannotNegateMaskAll = 9,
    HexStringTooDeep = 10,
    TooManyTokens = 11,
    NotSimple = 12,
    TooManyNodes = 13,
    BranchTooLong = 14,
    Unsound = 15,
    BadWindow = 16,
    TooManyLiterals = 17,
    NoRoom = 18,
    NotPlain = 19,
}

impl Refusal {
    // The number under which 01's table has the refusal.
    pub fn number(self) -> u32
        ensures { result ≡ number_of self }
    {
        self as u32
    }
}

// A refusal and the place at which it is given: the error of the doors that take texts.
#[derive(Clone, Copy, Debug, PartialEq, Eq)]
pub struct Refused {
    pub why: Refusal,
    pub place: usize,
}

// A refusal that no byte of a text is to blame for stands at place 0.
impl From<Refusal> for Refused {
    ghost from_gives = { λ why r. (r.why ≡ why) × (r.place ≡ 0) };

    fn from(why: Refusal) -> Self {
        Self { why, place: 0 }
    }
}
