// Translated from boreal's boreal-parser/src/hex_string.rs (MIT OR Apache-2.0), commit 7010b5e967; see NOTICE.
// The readers of token, list and alternatives call each other. Lists and alternatives are read in loops, so the stack
// grows with the levels and not with the tokens.
#![tactic(auto)]

ghost use Rattle.std.specs.Prelude.{◌≡◌, [], ◌∷◌, ◌+◌, ◌-◌, ◌/◌, ◌≤◌, ◌<◌, length};
ghost use Rattle.base.specs.declared.Refusal.TheVariants.{Unexpected};
ghost use Rattle.def_meaning.specs.Limits.{level_limit, token_pool};
ghost use Rattle.def_meaning.specs.Entries.{entries_of};
ghost use Rattle.def_reading.specs.Lists.{is_jump, token, list};
ghost use Rattle.digits.specs.Answers.{token_of};
ghost use Rattle.reader.specs.Written.{written};
ghost use Rattle.reader.specs.Says.{TokenSays, ListSays, alternatives, Room, first_of, list_end};

use base::{LEVEL_LIMIT, Refusal, Refused, TOKEN_LIMIT};
use digits::Leaf;

// How far reading has come: the offset, and the tokens counted and the words used until then.
#[derive(Clone, Copy)]
pub struct Point {
    pub at: usize,
    pub count: usize,
    pub words: usize,
}

// A token that was read, up to where, and whether it is a jump.
#[derive(Clone, Copy)]
pub struct TokenRead {
    pub to: Point,
    pub jump: bool,
}

// A list that was read, up to where, and how many tokens it has of its own.
#[derive(Clone, Copy)]
pub struct ListRead {
    pub to: Point,
    pub tokens: usize,
}

fn put(pool: &mut [u32], n: usize, entry: [u32; 4])
    requires { n + 4 ≤ length pool.old }
    ensures { pool.new ≡ written pool.old n entry }
{
    // Word by word: a copy would ask where the entry lies, so that it has to be in memory.
    let [kind, a, b, c] = entry;
    pool[n] = kind;
    pool[n + 1] = a;
    pool[n + 2] = b;
    pool[n + 3] = c;
}

// The entry before other entries that end at `end`: alternatives, or a list's mark.
fn put_head(pool: &mut [u32], n: usize, kind: u32, count: usize, end: usize)
    requires { (n + 4 ≤ end) × (end ≤ length pool.old) × (length pool.old ≡ token_pool) × (count ≤ token_pool) }
    ensures { pool.new ≡ written pool.old n (kind ∷ count ∷ ((end - (n + 4)) / 4) ∷ 0 ∷ []) }
{
    let inner = (end - (n + 4)) / 4;
    // `as`: both are below the words of the pool, and std has no From<usize> for u32.
    put(pool, n, [kind, count as u32, inner as u32, 0]);
}

// The words of a token's entry. Kinds are numbers here, and 5 and 6 below, since the pool for them is lent over the C interface.
fn entry(tok: Leaf) -> [u32; 4]
    ensures { result ≡ entries_of (token_of tok) }
{
    match tok {
        Leaf::Byte(v) => [0, v.into(), 0, 0],
        Leaf::NotByte(v) => [1, v.into(), 0, 0],
        Leaf::MaskedByte(v, m) => [2, v.into(), m.into(), 0],
        Leaf::NotMaskedByte(v, m) => [3, v.into(), m.into(), 0],
        Leaf::Jump(from, to) => [4, from, to, 1],
        Leaf::OpenJump(from) => [4, from, 0, 0],
    }
}

fn is_jump(tok: Leaf) -> bool
    ensures { result ≡ is_jump (token_of tok) }
{
    matches!(tok, Leaf::Jump(_, _) | Leaf::OpenJump(_))
}

fn first_jump(k: usize, first: bool, jump: bool) -> bool
    ensures { result ≡ first_of k first jump }
{
    if k == 0 { jump } else { first }
}

fn list_end(
    at: usize,
    to: Point,
    k: usize,
    first: bool,
    last: bool,
) -> Result<Option<ListRead>, Refused>
    ensures { result ≡ list_end at to.at to.words to.count k first last }
{
    if k == 0 {
        return Ok(None);
    }
    if first || last {
        return Err(Refused {
            why: Refusal::JumpAtBound,
            place: at,
        });
    }
    Ok(Some(ListRead { to, tokens: k }))
}

fn unexpected(place: usize) -> Refused
    ensures { result ≡ record { why = Unexpected; place = place } }
{
    Refused {
        why: Refusal::Unexpected,
        place,
    }
}

// One token, if there is one. What Room asks is of the text, the pool and a point together, so no type of one of them could hold it; and
// the text is lent to be read and the pool to be written, so a struct of both would be split at each call.
#[cycle(read_alternatives_read_list_read_token)]
pub fn read_token(
    text: &[u8],
    from: Point,
    level: usize,
    pool: &mut [u32],
) -> Result<Option<TokenRead>, Refused>
    requires { Room (length text.now) from.at level from.count from.words (length pool.old) × (level ≤ level_limit) }
    ensures { TokenSays (token text.now level from.count from.at) from.words result pool.old pool.new }
{
    let Some(leaf) = digits::leaf_token(text, from.at, 1 < level)? else {
        return read_alternatives(text, from, level, pool);
    };
    if TOKEN_LIMIT <= from.count {
        return Err(Refused {
            why: Refusal::TooManyTokens,
            place: from.at,
        });
    }
    put(pool, from.words, entry(leaf.value));
    let to = Point {
        at: leaf.end,
        count: from.count + 1,
        words: from.words + 4,
    };
    let jump = is_jump(leaf.value);
    Ok(Some(TokenRead { to, jump }))
}

// One token or more, and no jump at either end.
#[cycle(read_alternatives_read_list_read_token)]
pub fn read_list(
    text: &[u8],
    from: Point,
    level: usize,
    pool: &mut [u32],
) -> Result<Option<ListRead>, Refused>
    requires { Room (length text.now) from.at level from.count from.words (length pool.old) }
    ensures { ListSays (list text.now level from.count from.at) from.words result pool.old pool.new }
{
    if LEVEL_LIMIT < level {
        return Err(Refused {
            why: Refusal::HexStringTooDeep,
            place: from.at,
        });
    }
    let mut to = from;
    let mut k = 0;
    let mut first = false;
    let mut last = false;
    while let Some(got) = read_token(text, to, level, pool)? {
        first = first_jump(k, first, got.jump);
        last = got.jump;
        k += 1;
        to = got.to;
    }
    list_end(from.at, to, k, first, last)
}

// Alternatives. Their entry, and each list's mark, are written once what follows them is known. A `loop`, since all three ways out are within a turn.
#[cycle(read_alternatives_read_list_read_token)]
pub fn read_alternatives(
    text: &[u8],
    from: Point,
    level: usize,
    pool: &mut [u32],
) -> Result<Option<TokenRead>, Refused>
    requires { Room (length text.now) from.at level from.count from.words (length pool.old) × (level ≤ level_limit) }
    ensures { TokenSays (alternatives text.now level from.count from.at) from.words result pool.old pool.new }
{
    if digits::peek(text, from.at) != b'(' {
        return Ok(None);
    }
    if TOKEN_LIMIT <= from.count {
        return Err(Refused {
            why: Refusal::TooManyTokens,
            place: from.at,
        });
    }
    let mut x = Point {
        at: digits::skip_blanks(text, from.at + 1),
        count: from.count + 1,
        words: from.words + 4,
    };
    let mut miss = x.at;
    let mut k = 0;
    loop {
        let words = x.words + 4;
        let start = Point { words, ..x };
        let Some(got) = read_list(text, start, level + 1, pool)? else {
            return Err(unexpected(miss));
        };
        put_head(pool, x.words, 6, got.tokens, got.to.words);
        k += 1;
        match digits::peek(text, got.to.at) {
            b')' => {
                put_head(pool, from.words, 5, k, got.to.words);
                let at = digits::skip_blanks(text, got.to.at + 1);
                let to = Point { at, ..got.to };
                return Ok(Some(TokenRead { to, jump: false }));
            }
            b'|' => {
                miss = got.to.at;
                let at = digits::skip_blanks(text, miss + 1);
                x = Point { at, ..got.to };
            }
            _ => return Err(unexpected(got.to.at)),
        }
    }
}
