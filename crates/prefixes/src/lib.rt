// Translated from boreal's boreal/src/matcher/literals.rs (MIT OR Apache-2.0), commit 7010b5e967; see NOTICE.
// With which prefixes literal number k of token entries begins.
#![tactic(auto)]

ghost use Rattle.std.specs.Prelude.{◌≡◌, ◌*◌, ◌≤◌, ◌<◌};
ghost use Rattle.def_meaning.specs.Limits.{literal_limit};
ghost use Rattle.def_meaning.specs.Tokens as meaning;
ghost use Rattle.def_picking.specs.Numbers.{count_of, count, count_in, prefix_in, prefix_of, prefixed, ending_of};
ghost use Rattle.entries.specs.Walks.{meant};
ghost use Rattle.entries.specs.Words.{lists_in, tokens_in};
ghost use Rattle.prefixes.specs.Numbers.{Numerable};

use classes::Entry;
use entries::{Lists, Token, Tokens};

// With which of p prefixes literal number q of some lists begins. (spelling::write_branch walks to the same list: a finder for both would hand out three
// values that each takes apart again, which is no plainer. The bound on p, a count, is asked by three functions: a number with it would be unwrapped there.)
fn prefix_in(ls: &[u32], p: usize, q: usize) -> usize
    requires { (p ≤ literal_limit) × (count_in (lists_in ls.now) ≤ literal_limit) }
    ensures { result ≡ prefix_in (lists_in ls.now) p q }
{
    let mut left = q;
    for list in (Lists { words: ls }) {
        let n = tallies::count_list(list);
        let block = p * n;
        if left < block {
            return left / n;
        }
        left -= block;
    }
    0
}

// The same of a token.
fn prefix_of(token: Token, p: usize, q: usize) -> usize
    requires { (p ≤ literal_limit) × (count_of (meant token) ≤ literal_limit) }
    ensures { result ≡ prefix_of (meant token.entry) p q }
{
    match token {
        Token::Alternatives(lists) => prefix_in(lists, p, q),
        Token::One(entry) => q.checked_div(entry.count()).unwrap_or(0),
    }
}

// The same of all tokens: the last is asked first. Bytes are passed over, or a long run of them would be walked, on the stack, for each class before it:
// a byte has one literal, so that no number changes at it.
fn prefixed_by(mut tokens: Tokens, p: usize, k: usize) -> usize
    requires { Numerable p (count (tokens_in tokens.words.now)) }
    ensures { result ≡ prefixed (tokens_in tokens.entry.words.now) p k }
{
    // Not a `for`: what is left of the tokens is handed on.
    while let Some(token) = tokens.next() {
        if let Token::One(Entry::Byte(_)) = token {
            continue;
        }
        let after = p * tallies::tally_token(token).literals;
        let q = prefixed_by(tokens, after, k);
        return prefix_of(token, p, q);
    }
    k
}

// The number of the prefix, a token with n literals and all before it, with which literal number k begins, where p prefixes stand before that token
// and `after` behind it. A token with one literal has it at every number; among 256 literals eight tokens at most have more, so that few walk through
// all tokens after them.
pub fn number_of(after: Tokens, p: usize, n: usize, k: usize) -> usize
    requires { Numerable (p * n) (count (tokens_in after.words.now)) × (k < p * n * count (tokens_in after.words.now)) }
    ensures { (t : meaning.Token) → count_of t ≡ n → ending_of t p result ≡ ending_of t p (prefixed (tokens_in after.entry.words.now) (p * n) k) }
{
    if n == 1 {
        return 0;
    }
    prefixed_by(after, p * n, k)
}
