// Translated from boreal's boreal-parser/src/hex_string.rs (MIT OR Apache-2.0), commit 7010b5e967; see NOTICE.
// The small readers. Each one answers where it stopped, and where the blanks after that end. A text and an offset are a reader's cursor; they are no struct,
// since a reader looks at several offsets and the clauses speak of both, so each would take it apart again.
#![tactic(auto)]

ghost use Rattle.std.specs.Prelude.{◌≡◌, ℕ, drop, get_or};
ghost use Rattle.def_meaning.specs.Entries.{mask_number};
ghost use Rattle.def_reading.specs.Blanks.{blank, skip};
ghost use Rattle.def_reading.specs.Pieces.{digit, decimal, byte_at, masked_at, hex_at, not_at, number_at, checked, closed_at, dash_at, range_at, jump_token, jumped, found, hex_token, leaf_at, ◌else◌};
ghost use Rattle.digits.specs.Answers.{value_of, mask_of, hex_of, ending, spelled, token_of, leaf_seen, numbered, bounded, ranged};

use base::{INNER_JUMP_LIMIT, NUMBER_LIMIT, Refusal, Refused};

// With the number by which an entry says it.
#[derive(Clone, Copy)]
pub enum Mask {
    Left = 0,
    Right = 1,
    All = 2,
}

impl From<Mask> for u32 {
    ghost from_gives = { λ m n. n ≡ mask_number (mask_of m) };

    fn from(m: Mask) -> Self {
        m as u32
    }
}

// A byte as it is spelled, whole or masked.
#[derive(Clone, Copy)]
pub enum HexByte {
    Whole(u8),
    Masked(u8, Mask),
}

// A leaf is the original's token without its alternatives, which only the readers above know.
#[derive(Clone, Copy)]
pub enum Leaf {
    Byte(u8),
    NotByte(u8),
    MaskedByte(u8, Mask),
    NotMaskedByte(u8, Mask),
    Jump(u32, u32),
    OpenJump(u32),
}

impl From<HexByte> for Leaf {
    ghost from_gives = { λ h r. (s e : ℕ) → hex_token (found (hex_of h) s e) ≡ found (token_of r) s e };

    fn from(h: HexByte) -> Self {
        match h {
            HexByte::Whole(v) => Self::Byte(v),
            HexByte::Masked(v, m) => Self::MaskedByte(v, m),
        }
    }
}

// A jump's bounds, of which the upper one may be missing.
#[derive(Clone, Copy)]
pub struct Bounds {
    pub from: u32,
    pub to: Option<u32>,
}

// What was read: where it stopped, and where the blanks after that end. The value lies behind these: a refusal's place then lies where `stop` does, and not
// where a leaf's parts do, which were packed into one word and taken apart again at each token.
#[derive(Clone, Copy)]
pub struct Read<T> {
    pub stop: usize,
    pub end: usize,
    pub value: T,
}

// A number above 4,294,967,295.
#[derive(Clone, Copy, Debug, PartialEq, Eq)]
pub struct TooBig;

// The byte at an offset, and 0 past the end: no reader takes 0 for anything.
pub fn peek(text: &[u8], at: usize) -> u8
    ensures { result ≡ get_or text.now at 0 }
{
    text.get(at).copied().unwrap_or(0)
}

pub fn is_blank(c: u8) -> bool
    ensures { result ≡ blank c }
{
    matches!(c, b' ' | b'\t' | b'\r' | b'\n')
}

// The text from an offset on, of which nothing is left past the end.
fn rest(text: &[u8], at: usize) -> &[u8]
    ensures { result.now ≡ drop at text.now }
{
    text.get(at..).unwrap_or(&[])
}

pub fn skip_blanks(text: &[u8], at: usize) -> usize
    ensures { result ≡ skip text.now at }
{
    let blanks = rest(text, at).iter().take_while(|c| is_blank(**c));
    at + blanks.count()
}

// What a letter has more than the value for which it stands.
const UPPER: u8 = b'A' - 10;

const LOWER: u8 = b'a' - 10;

pub fn hex_digit(c: u8) -> Option<u8>
    ensures { value_of result ≡ digit c }
{
    match c {
        b'0'..=b'9' => Some(c - b'0'),
        b'A'..=b'F' => Some(c - UPPER),
        b'a'..=b'f' => Some(c - LOWER),
        _ => None,
    }
}

// A value that is spelled up to `stop`.
fn up_to<T>(text: &[u8], value: T, stop: usize) -> Read<T>
    ensures { result ≡ ending text.now value stop }
{
    Read {
        value,
        stop,
        end: skip_blanks(text, stop),
    }
}

pub fn byte(text: &[u8], at: usize) -> Option<Read<HexByte>>
    ensures { spelled result ≡ byte_at text.now at }
{
    let high = hex_digit(peek(text, at))?;
    let low = hex_digit(peek(text, at + 1))?;
    Some(up_to(text, HexByte::Whole(16 * high + low), at + 2))
}

// A call of this or of `hex_byte` would hand back what was read through memory: 63,000 instructions for a text of 512 bytes, and not 48,000.
#[inline(always)]
pub fn masked_byte(text: &[u8], at: usize) -> Option<Read<HexByte>>
    ensures { spelled result ≡ masked_at text.now at }
{
    let first = peek(text, at);
    if first == b'?' {
        let second = peek(text, at + 1);
        if second == b'?' {
            return Some(up_to(text, HexByte::Masked(0, Mask::All), at + 2));
        }
        let low = hex_digit(second)?;
        return Some(up_to(text, HexByte::Masked(low, Mask::Left), at + 2));
    }
    let high = hex_digit(first)?;
    if peek(text, at + 1) != b'?' {
        return None;
    }
    Some(up_to(text, HexByte::Masked(high, Mask::Right), at + 2))
}

// No `or_else`, which stays a call with a closure in memory.
#[inline(always)]
pub fn hex_byte(text: &[u8], at: usize) -> Option<Read<HexByte>>
    ensures { spelled result ≡ hex_at text.now at }
{
    let Some(whole) = byte(text, at) else {
        return masked_byte(text, at);
    };
    Some(whole)
}

pub fn not_token(text: &[u8], at: usize) -> Result<Option<Read<Leaf>>, Refused>
    ensures { leaf_seen result ≡ not_at text.now at }
{
    if peek(text, at) != b'~' {
        return Ok(None);
    }
    let Some(h) = hex_byte(text, at + 1) else {
        return Err(Refused {
            why: Refusal::Unexpected,
            place: at + 1,
        });
    };
    let value = match h.value {
        HexByte::Whole(v) => Leaf::NotByte(v),
        HexByte::Masked(v, m) => match m {
            Mask::Left | Mask::Right => Leaf::NotMaskedByte(v, m),
            Mask::All => {
                return Err(Refused {
                    why: Refusal::CannotNegateMaskAll,
                    place: at,
                });
            }
        },
    };
    Ok(Some(Read {
        value,
        stop: h.stop,
        end: h.end,
    }))
}

// Stops at the digit by which the number grows too big: nothing after it can mend that.
pub fn number(text: &[u8], at: usize) -> Result<Option<Read<u32>>, TooBig>
    ensures { numbered at result ≡ number_at text.now at }
{
    // Before the loop, whose start costs more than this test: a jump of one bound has no other number.
    if !peek(text, at).is_ascii_digit() {
        return Ok(None);
    }
    let mut value: u64 = 0;
    // Counted beside the loop: its end is wanted also where the text ends with a digit, and `enumerate` gives none there.
    let mut stop = at;
    for c in rest(text, at) {
        if !c.is_ascii_digit() {
            break;
        }
        value = 10 * value + u64::from(c - b'0');
        if NUMBER_LIMIT < value {
            return Err(TooBig);
        }
        stop += 1;
    }
    // `as`: the value is within NUMBER_LIMIT, and no From makes a number narrower.
    Ok(Some(up_to(text, value as u32, stop)))
}

// A number of a jump, which is refused at its first digit.
fn bound(text: &[u8], at: usize) -> Result<Option<Read<u32>>, Refused>
    ensures { bounded result ≡ number_at text.now at }
{
    number(text, at).map_err(|_| Refused {
        why: Refusal::NumberTooBig,
        place: at,
    })
}

// A jump from the `[` at `at`, whose `]` ends at `stop`.
fn checked_jump(
    text: &[u8],
    at: usize,
    bounds: Bounds,
    stop: usize,
) -> Result<Option<Read<Bounds>>, Refused>
    ensures { ranged result ≡ checked text.now at bounds.from (value_of bounds.to) stop }
{
    if let Some(to) = bounds.to {
        if bounds.from == 0 && to == 0 {
            return Err(Refused {
                why: Refusal::JumpEmpty,
                place: at,
            });
        }
        if to < bounds.from {
            return Err(Refused {
                why: Refusal::JumpRangeInvalid,
                place: at,
            });
        }
    }
    Ok(Some(up_to(text, bounds, stop)))
}

fn closed_jump(
    text: &[u8],
    at: usize,
    bounds: Bounds,
    x: usize,
) -> Result<Option<Read<Bounds>>, Refused>
    ensures { ranged result ≡ closed_at text.now at bounds.from (value_of bounds.to) x }
{
    if peek(text, x) != b']' {
        return Ok(None);
    }
    checked_jump(text, at, bounds, x + 1)
}

fn dashed_jump(text: &[u8], at: usize, from: u32, x: usize) -> Result<Option<Read<Bounds>>, Refused>
    ensures { ranged result ≡ dash_at text.now at from x }
{
    if peek(text, x) != b'-' {
        return Ok(None);
    }
    let y = skip_blanks(text, x + 1);
    match bound(text, y)? {
        Some(to) => closed_jump(
            text,
            at,
            Bounds {
                from,
                to: Some(to.value),
            },
            to.end,
        ),
        None => closed_jump(text, at, Bounds { from, to: None }, y),
    }
}

pub fn range(text: &[u8], at: usize) -> Result<Option<Read<Bounds>>, Refused>
    ensures { ranged result ≡ range_at text.now at }
{
    if peek(text, at) != b'[' {
        return Ok(None);
    }
    let x = skip_blanks(text, at + 1);
    let Some(from) = bound(text, x)? else {
        return dashed_jump(text, at, 0, x);
    };
    if peek(text, from.end) != b']' {
        return dashed_jump(text, at, from.value, from.end);
    }
    let bounds = Bounds {
        from: from.value,
        to: Some(from.value),
    };
    checked_jump(text, at, bounds, from.end + 1)
}

pub fn jump(text: &[u8], at: usize, inside: bool) -> Result<Option<Read<Leaf>>, Refused>
    ensures { leaf_seen result ≡ jumped inside at (range_at text.now at) }
{
    let Some(b) = range(text, at)? else {
        return Ok(None);
    };
    let value = match b.value.to {
        None if inside => {
            return Err(Refused {
                why: Refusal::JumpUnboundedInAlternation,
                place: at,
            });
        }
        None => Leaf::OpenJump(b.value.from),
        // Alternatives have no jump above their own limit.
        Some(to) if inside && INNER_JUMP_LIMIT < to => {
            return Err(Refused {
                why: Refusal::JumpTooBigInAlternation,
                place: at,
            });
        }
        Some(to) => one_jump(b.value.from, to),
    };
    Ok(Some(Read {
        value,
        stop: b.stop,
        end: b.end,
    }))
}

fn one_jump(from: u32, to: u32) -> Leaf
    ensures { token_of result ≡ jump_token from to }
{
    if from == 1 && to == 1 {
        Leaf::MaskedByte(0, Mask::All)
    } else {
        Leaf::Jump(from, to)
    }
}

fn byte_or_jump(text: &[u8], at: usize, inside: bool) -> Result<Option<Read<Leaf>>, Refused>
    ensures { leaf_seen result ≡ hex_token (hex_at text.now at) else jumped inside at (range_at text.now at) }
{
    let Some(h) = hex_byte(text, at) else {
        return jump(text, at, inside);
    };
    Ok(Some(Read {
        value: h.value.into(),
        stop: h.stop,
        end: h.end,
    }))
}

// A token other than alternatives.
pub fn leaf_token(text: &[u8], at: usize, inside: bool) -> Result<Option<Read<Leaf>>, Refused>
    ensures { leaf_seen result ≡ leaf_at text.now inside at }
{
    let Some(not) = not_token(text, at)? else {
        return byte_or_jump(text, at, inside);
    };
    Ok(Some(not))
}
