// Translated from boreal's boreal/src/matcher/literals.rs (MIT OR Apache-2.0), commit 7010b5e967; see NOTICE.
// The writing of literal number k of token entries.
#![tactic(auto)]

ghost use Rattle.std.specs.Prelude.{◌≤◌, ◌<◌, length};
ghost use Rattle.std.specs.Fn.{FnOnceReturnsAt};
ghost use Rattle.def_meaning.specs.Limits.{literal_limit, token_pool};
ghost use Rattle.def_picking.specs.Numbers.{count, count_in, ending_of, ending_in, literal_at};
ghost use Rattle.entries.specs.Walks.{meant};
ghost use Rattle.entries.specs.Words.{branch_in, lists_in, tokens_in};
ghost use Rattle.spelling.specs.Writing.{Written, Writable};

use base::ENTRY_LIMIT;
use classes::Entry;
use entries::{ENTRY, Lists, Token, Tokens};

// Writes literal number k of a list without alternatives.
fn write_list(ws: &[u32], k: usize, dst: &mut [u8]) -> usize
    requires { (k < count (branch_in ws.now)) × (count (branch_in ws.now) ≤ literal_limit) × (length (literal_at (branch_in ws.now) k) ≤ length dst.old) }
    ensures { Written result (literal_at (branch_in ws.now) k) dst.old dst.new }
{
    let (entries, _) = ws.as_chunks::<ENTRY>();
    let mut n = tallies::count_list(ws);
    for (i, words) in entries.iter().enumerate() {
        let entry = Entry::from(*words);
        // Most are bytes, here and below. They need no division.
        if let Entry::Byte(b) = entry {
            dst[i] = b;
            continue;
        }
        let c = entry.count();
        n /= c;
        dst[i] = entry.at(k / n % c);
    }
    entries.len()
}

// Writes what literal number q of some lists has after its prefix.
fn write_branch(ls: &[u32], p: usize, q: usize, dst: &mut [u8]) -> usize
    requires { (p ≤ literal_limit) × (count_in (lists_in ls.now) ≤ literal_limit) × (length (ending_in (lists_in ls.now) p q) ≤ length dst.old) }
    ensures { Written result (ending_in (lists_in ls.now) p q) dst.old dst.new }
{
    let mut left = q;
    for list in (Lists { words: ls }) {
        let n = tallies::count_list(list);
        let block = p * n;
        if left < block {
            return write_list(list, left % n, dst);
        }
        left -= block;
    }
    0
}

// The same of a token.
fn write_token(token: Token, p: usize, q: usize, dst: &mut [u8]) -> usize
    requires { Writable p (meant token) q (length dst.old) }
    ensures { Written result (ending_of (meant token.entry) p q) dst.old dst.new }
{
    match token {
        Token::Alternatives(lists) => write_branch(lists, p, q, dst),
        Token::One(entry) => {
            dst[0] = entry.at(q % entry.count());
            1
        }
    }
}

// Writes literal number k of tokens. That there is such a literal, and that there are few, is asked of words and a number together, so no type of one of
// them could hold it.
pub fn write_literal(ws: &[u32], k: usize, dst: &mut [u8]) -> usize
    requires { (k < count (tokens_in ws.now)) × (count (tokens_in ws.now) ≤ literal_limit) × (length (literal_at (tokens_in ws.now) k) ≤ length dst.old) }
    ensures { Written result (literal_at (tokens_in ws.now) k) dst.old dst.new }
{
    let mut tokens = Tokens { words: ws };
    let mut p = 1;
    let mut i = 0;
    // Not a `for`: what is left of the tokens is handed on.
    while let Some(token) = tokens.next() {
        // A byte has one literal, so that p stays.
        if let Token::One(Entry::Byte(b)) = token {
            dst[i] = b;
            i += 1;
            continue;
        }
        let t = tallies::tally_token(token);
        let q = prefixes::number_of(tokens, p, t.literals, k);
        i += write_token(token, p, q, &mut dst[i..]);
        p *= t.literals;
    }
    i
}

// Literal number k of tokens, spelled into bytes of the stack and handed on. It has at most as many bytes as there are entries.
pub fn with_literal<R, F: FnOnce(&[u8]) -> R>(ws: &[u32], k: usize, f: F) -> R
    requires number { (k < count (tokens_in ws.now)) × (count (tokens_in ws.now) ≤ literal_limit) }
    requires few { length ws.now ≤ token_pool }
    requires callable { F.IsAlwaysCallable f }
    ensures { FnOnceReturnsAt F.FnOnce f (literal_at (tokens_in ws.now) k) result }
{
    let mut scratch = [0u8; ENTRY_LIMIT];
    let n = write_literal(ws, k, &mut scratch);
    f(&scratch[..n])
}
