// Translated from boreal's boreal/src/matcher/literals.rs (MIT OR Apache-2.0), commit 7010b5e967; see NOTICE.
// The rank of a slice of token entries, by the scores of its literals.
#![tactic(auto)]

ghost use Rattle.std.specs.Prelude.{◌≡◌, ◌≤◌, ◌<◌, ◌-◌, length, Ok};
ghost use Rattle.def_meaning.specs.Limits.{literal_limit, token_pool};
ghost use Rattle.atoms.specs.Score.{literal_score};
ghost use Rattle.def_picking.specs.Literals.{literals};
ghost use Rattle.def_picking.specs.Numbers.{count, literal_at};
ghost use Rattle.def_picking.specs.Candidates.{least, penalty, rank, ranked};
ghost use Rattle.entries.specs.Words.{tokens_in};
ghost use Rattle.picks.specs.Ranks.{Settles};

use base::{COMBINATION_LIMIT, LITERAL_LIMIT};
use picks::{Rank, TooMany, Winner};

// The score of literal number k. That words are few is asked by each function: they hand on parts of their words, which a type that holds the bound
// would have to cut by methods of its own.
pub fn score_at(ws: &[u32], k: usize) -> u32
    requires { (length ws.now ≤ token_pool) × (k < count (tokens_in ws.now)) × (count (tokens_in ws.now) ≤ literal_limit) }
    ensures { result ≡ literal_score (literal_at (tokens_in ws.now) k) }
{
    spelling::with_literal(ws, k, atoms::literal_score)
}

fn penalty_of(n: usize) -> u32
    ensures { result ≡ penalty n }
{
    match n {
        100.. => 40,
        17.. => 20,
        2.. => 10,
        _ => 0,
    }
}

// What the literals are worth to the best so far. Scoring more of them can only lower the rank, so it stops where that changes nothing.
fn worth(ws: &[u32], n: usize, penalty: u32, best: Winner) -> Option<u32>
    requires { (length ws.now ≤ token_pool) × (n ≡ count (tokens_in ws.now)) × (n ≤ literal_limit) }
    ensures { Settles best (Ok result) (ranked (least literal_score (literals (tokens_in ws.now)) - penalty)) }
{
    if n == 0 {
        return Some(0);
    }
    let mut least = score_at(ws, 0);
    for k in 1..n {
        let most = least.saturating_sub(penalty);
        if most == 0 {
            return Some(0);
        }
        if picks::beaten(best, most) {
            return None;
        }
        least = least.min(score_at(ws, k));
    }
    Some(least.saturating_sub(penalty))
}

// A slice's rank, or one that changes the best so far as little; none where the slice is skipped.
pub fn rank_of(ws: &[u32], best: Winner) -> Rank
    requires { length ws.now ≤ token_pool }
    ensures { Settles best result (rank (tokens_in ws.now)) }
{
    let t = tallies::tally_tokens(ws);
    if COMBINATION_LIMIT < t.combinations {
        return Ok(None);
    }
    if LITERAL_LIMIT < t.literals {
        return Err(TooMany);
    }
    Ok(worth(ws, t.literals, penalty_of(t.combinations), best))
}
