// Translated from boreal's boreal/src/matcher/literals.rs (MIT OR Apache-2.0), commit 7010b5e967; see NOTICE.
// The generator of literals: all of them, in order, into lent buffers.
#![tactic(auto)]

ghost use Rattle.std.specs.Prelude.{◌≡◌, ◌≤◌, ◌<◌, length};
ghost use mathlib.Core.List.{map, flatten};
ghost use Rattle.def_meaning.specs.Limits.{literal_limit, token_pool};
ghost use Rattle.def_picking.specs.Literals.{literals};
ghost use Rattle.def_picking.specs.Numbers.{count, literal_at};
ghost use Rattle.entries.specs.Words.{tokens_in};
ghost use Rattle.generator.specs.Output.{over, Generated};

use base::Refusal;

fn length_at(ws: &[u32], k: usize) -> usize
    requires { (length ws.now ≤ token_pool) × (k < count (tokens_in ws.now)) × (count (tokens_in ws.now) ≤ literal_limit) }
    ensures { result ≡ length (literal_at (tokens_in ws.now) k) }
{
    spelling::with_literal(ws, k, |literal| literal.len())
}

// The bytes of all n literals; n is handed on, since to count them is a walk over all words. Known before the first is written, for a refusal leaves the buffers as they were.
fn total_of(ws: &[u32], n: usize) -> usize
    requires { (length ws.now ≤ token_pool) × (n ≡ count (tokens_in ws.now)) × (n ≤ literal_limit) }
    ensures { result ≡ length (flatten (literals (tokens_in ws.now))) }
{
    (0..n).map(|k| length_at(ws, k)).sum()
}

// Writes all n literals, each into what the ones before it left of the buffer. A literal and its length have one number, so one count is plainer
// than a zip of both.
fn write_each(ws: &[u32], n: usize, bytes: &mut [u8], lengths: &mut [u16])
    requires { (length ws.now ≤ token_pool) × (n ≡ count (tokens_in ws.now)) × (n ≤ literal_limit) × (n ≤ length lengths.old) × (length (flatten (literals (tokens_in ws.now))) ≤ length bytes.old) }
    ensures { (bytes.new ≡ over (flatten (literals (tokens_in ws.now))) bytes.old) × (lengths.new ≡ over (map length (literals (tokens_in ws.now))) lengths.old) }
{
    let mut at = 0;
    for k in 0..n {
        let w = spelling::write_literal(ws, k, &mut bytes[at..]);
        // `as`: a literal has at most ENTRY_LIMIT bytes, and no From makes a number narrower.
        lengths[k] = w as u16;
        at += w;
    }
}

// Writes the literals one after another, and the length of each, and answers how many; or neither, where one of the two does not fit.
pub fn write_all(ws: &[u32], bytes: &mut [u8], lengths: &mut [u16]) -> Result<usize, Refusal>
    requires { (length ws.now ≤ token_pool) × (count (tokens_in ws.now) ≤ literal_limit) }
    ensures { Generated (literals (tokens_in ws.now)) result bytes.old lengths.old bytes.new lengths.new }
{
    let n = tallies::tally_tokens(ws).literals;
    if lengths.len() < n || bytes.len() < total_of(ws, n) {
        return Err(Refusal::NoRoom);
    }
    write_each(ws, n, bytes, lengths);
    Ok(n)
}
