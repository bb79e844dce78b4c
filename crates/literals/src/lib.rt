// Translated from boreal's boreal/src/matcher/literals.rs (MIT OR Apache-2.0), commit 7010b5e967; see NOTICE.
// Which search literals win in a run of token entries.
#![tactic(auto)]

ghost use Rattle.std.specs.Prelude.{◌≡◌, List, ◌∷◌, ◌≤◌, ◌-◌, length, take, drop};
ghost use Rattle.def_meaning.specs.Limits.{token_pool};
ghost use Rattle.def_meaning.specs.Tokens.{Tokens, nothing};
ghost use Rattle.def_picking.specs.Runs.{parts, longer, slices};
ghost use Rattle.def_picking.specs.Candidates.{best as bestOf, unranked, strong, alone_or, in_run};
ghost use Rattle.entries.specs.Words.{tokens_in};
ghost use Rattle.picks.specs.Ranks.{pick_says, winner_says};
ghost use Rattle.runs.specs.Whole.{Placed, Whole};

use picks::{Pick, TooMany};

// A slice and the longer ones with the same first part, which begins at `at`. Parts are walked by
// their places, which the winner keeps: an iterator over their words would have to give them besides, and be no plainer.
fn longer_slices(
    run: &[u32],
    prior: usize,
    at: usize,
    best: Option<Pick>,
) -> Result<Option<Pick>, TooMany>
    requires { Placed run.now prior at }
    ensures { (own : Tokens) (ps : List Tokens) → parts (tokens_in (drop at run.now)) ≡ own ∷ ps → winner_says run.now result ≡ bestOf (pick_says run.now best) (longer ps (tokens_in (take (at - prior) (drop prior run.now))) own 0) }
{
    let mut to = at + runs::part_words(&run[at..]);
    let mut len = 0;
    let mut top = best;
    loop {
        let rank = ranking::rank_of(&run[at..to], Ok(top));
        let next = runs::byte_words(&run[to..]);
        top = picks::ranked_against(Ok(top), prior, to + next, rank)?;
        if 4 <= len || run.len() - to < 4 {
            return Ok(top);
        }
        let e = to + runs::part_words(&run[to..]);
        len += tallies::length_of(&run[to..e]);
        to = e;
    }
}

// (Whole is asked of words that are cut out of others, as the bound on their number is: ranking says why no type holds it.)
// The first highest slice of a run, with the literal parts on either side. Parts are walked by width, as above.
fn best_slice(run: &[u32]) -> Result<Option<Pick>, TooMany>
    requires { (length run.now ≤ token_pool) × Whole run.now }
    ensures { winner_says run.now result ≡ bestOf unranked (slices (parts (tokens_in run.now)) nothing) }
{
    let mut prior = 0;
    let mut at = 0;
    let mut top = None;
    while 4 <= run.len() - at {
        top = longer_slices(run, prior, at, top)?;
        let e = at + runs::part_words(&run[at..]);
        prior = runs::literal_start(run[at], at, e);
        at = e;
    }
    Ok(top)
}

// The first literal part that scores at least 80. Parts are walked by width, as above.
fn strong_part(run: &[u32]) -> Option<Pick>
    requires { (length run.now ≤ token_pool) × Whole run.now }
    ensures { pick_says run.now result ≡ alone_or (strong (parts (tokens_in run.now))) unranked }
{
    let mut at = 0;
    while 4 <= run.len() - at {
        let to = at + runs::part_words(&run[at..]);
        if run[at] == runs::BYTE {
            let rank = ranking::score_at(&run[at..to], 0);
            if 80 <= rank {
                return Some(Pick { from: at, to, rank });
            }
        }
        at = to;
    }
    None
}

// What is chosen in a run: such a part alone, or else the best slice. Never taken in: its caller, which passes over empty runs, stays small without it.
#[inline(never)]
pub fn in_run(run: &[u32]) -> Result<Option<Pick>, TooMany>
    requires { (length run.now ≤ token_pool) × Whole run.now }
    ensures { winner_says run.now result ≡ in_run (tokens_in run.now) }
{
    match strong_part(run) {
        Some(alone) => Ok(Some(alone)),
        None => best_slice(run),
    }
}
