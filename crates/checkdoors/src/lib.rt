// Translated from boreal's boreal/src/matcher/validator/simple.rs (MIT OR Apache-2.0), commit 7010b5e967; see NOTICE.
// The doors of the two checks: any words, any haystack and any window numbers are answered. A window is its two numbers, as 01 and the C
// interface hand them over: a struct around them would be made at each call and taken apart in it.
#![tactic(auto)]

ghost use Rattle.std.specs.Prelude.{◌≡◌};
ghost use Rattle.checkdoors.specs.Doors.{refusal, why_not, forward_says, reverse_says, Answered, HandsBack};

use base::{NODE_LIMIT, Refusal};
use nodes::NodeWord;
use sound::is_sound;

// Whether a check may run, or why not: 16, then 13, then 15, as 01 orders the tests of a check; `len` is the haystack's length.
fn admit(words: &[NodeWord], len: usize, start: usize, end: usize) -> Result<(), Refusal>
    ensures { why_not result ≡ refusal words.now len start end }
{
    if end < start {
        return Err(Refusal::BadWindow);
    }
    if len < end {
        return Err(Refusal::BadWindow);
    }
    if NODE_LIMIT < words.len() {
        return Err(Refusal::TooManyNodes);
    }
    if !is_sound(words) {
        return Err(Refusal::Unsound);
    }
    Ok(())
}

// The forward check of the window from start to end: the end of the first choice that fits at its start, or None where none fits.
pub fn forward(
    words: &[NodeWord],
    hay: &[u8],
    start: usize,
    end: usize,
) -> Result<Option<usize>, Refusal>
    ensures { Answered (forward_says words.now hay.now start end) hay.now result }
{
    admit(words, hay.len(), start, end)?;
    let Some(left) = forward::check(words, &hay[start..end]) else {
        return Ok(None);
    };
    let after = end - left;
    Ok(Some(after))
}

// The reverse check of the window from start to end: the start of the first choice that fits at its end, or None where none fits. (One function over the
// way would need the offset besides, and be no plainer than the two doors.)
pub fn reverse(
    words: &[NodeWord],
    hay: &[u8],
    start: usize,
    end: usize,
) -> Result<Option<usize>, Refusal>
    ensures { Answered (reverse_says words.now hay.now start end) hay.now result }
{
    admit(words, hay.len(), start, end)?;
    let Some(left) = reverse::check(words, &hay[start..end]) else {
        return Ok(None);
    };
    let at = start + left;
    Ok(Some(at))
}

// The second forward door: what the match leaves of the window, as the caller's own bytes.
pub fn left_forward<'n, 'h>(
    words: &'n [NodeWord],
    hay: &'h [u8],
    start: usize,
    end: usize,
) -> &'h [u8]
    ensures { HandsBack words.now hay.entry start end result }
{
    if admit(words, hay.len(), start, end).is_err() {
        return &hay[0..0]; // refused
    }
    let window = &hay[start..end];
    let Some(left) = forward::check(words, window) else {
        return &hay[0..0]; // no match
    };
    let used = window.len() - left;
    &window[used..]
}
