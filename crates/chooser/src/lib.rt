// Translated from boreal's boreal/src/matcher/literals.rs (MIT OR Apache-2.0), commit 7010b5e967; see NOTICE.
// Which run of a pattern wins, over token entries.
#![tactic(auto)]

ghost use Rattle.std.specs.Prelude.{◌≡◌, List, [], ◌∷◌, ℕ, ◌+◌, ◌-◌, ◌≤◌, length, take, drop, Some, IfOk};
ghost use Rattle.def_meaning.specs.Limits.{token_pool};
ghost use Rattle.def_picking.specs.Literals.{literals};
ghost use Rattle.def_picking.specs.Runs.{segments, filled_ones};
ghost use Rattle.def_picking.specs.Candidates.{least, beats, between, among_runs, in_pattern, unranked};
ghost use Rattle.entries.specs.Words.{tokens_in};
ghost use Rattle.picks.specs.Ranks.{pick_says, winner_says};
ghost use Rattle.runs.specs.Whole.{Whole, afterward};
ghost use Rattle.chooser.specs.Kept.{Inside, Measured, Kept, AllTold, Stretch, later_runs};

use picks::{Pick, TooMany};

// The bytes of the shortest literal, told by the tokens: to write all literals out takes too long where many runs have one rank.
fn shortest_in(ws: &[u32]) -> usize
    requires { Measured (tokens_in ws.now) }
    ensures { result ≡ least length (literals (tokens_in ws.now)) }
{
    tallies::length_of(ws)
}

// A higher rank, then a longer shortest literal.
fn wins(ws: &[u32], new: Pick, old: Pick) -> bool
    requires { Kept ws.now (Some new) × Kept ws.now (Some old) }
    ensures { result ≡ beats new.rank (tokens_in (take (new.to - new.from) (drop new.from ws.now))) old.rank (tokens_in (take (old.to - old.from) (drop old.from ws.now))) }
{
    old.rank < new.rank
        || (old.rank == new.rank && shortest_in(old.words(ws)) < shortest_in(new.words(ws)))
}

// Between two runs: the one that beats the other, else the earlier.
fn better(ws: &[u32], top: Option<Pick>, new: Pick) -> Pick
    requires { Kept ws.now top × Kept ws.now (Some new) }
    ensures { (pick_says ws.now (Some result) ≡ between (pick_says ws.now top) (pick_says ws.now (Some new))) × Kept ws.now (Some result) }
{
    let Some(old) = top else {
        return new;
    };
    if wins(ws, new, old) { new } else { old }
}

// What wins in a run of n words from `from` on, as words of all. It is cut to the run, past whose end there is nothing to choose.
fn shifted(p: Pick, from: usize, n: usize) -> Pick
    requires { from + n ≤ token_pool }
    ensures { ((ws : List ℕ) → from + n ≤ length ws → pick_says ws (Some result) ≡ pick_says (take n (drop from ws)) (Some p)) × Inside (from + n) (Some result) }
{
    let e = p.to.min(n);
    let s = p.from.min(e);
    Pick {
        from: from + s,
        to: from + e,
        rank: p.rank,
    }
}

// One more run, from `from` to `to`; an empty one is dropped. Taken in by its callers: of many runs most are empty, and a call would hand what is
// chosen so far on and back through memory.
#[inline(always)]
fn with_run(ws: &[u32], from: usize, to: usize, top: Option<Pick>) -> Result<Option<Pick>, TooMany>
    requires { Stretch ws.now from to × Kept ws.now top }
    ensures { (winner_says ws.now result ≡ among_runs (pick_says ws.now top) (filled_ones (tokens_in (take (to - from) (drop from ws.now)) ∷ []))) × IfOk result (Kept ws.now) }
{
    if to <= from {
        return Ok(top);
    }
    let Some(p) = literals::in_run(&ws[from..to])? else {
        return Ok(top);
    };
    let new = shifted(p, from, to - from);
    Ok(Some(better(ws, top, new)))
}

// What is chosen among the runs after the first segment, which ends at `first`. Segments are walked here alone,
// and by their places, which an iterator over their words would have to give besides.
fn later_runs(ws: &[u32], first: usize) -> Result<Option<Pick>, TooMany>
    requires { (length ws.now ≤ token_pool) × (first ≤ length ws.now) × Whole (drop first ws.now) × AllTold (afterward (tokens_in (drop first ws.now))) }
    ensures { (winner_says ws.now result ≡ among_runs unranked (later_runs (drop first ws.now))) × IfOk result (Kept ws.now) }
{
    let mut at = first;
    let mut top = None;
    while 4 <= ws.len() - at {
        let from = at + entries::width_of(&ws[at..]);
        let to = from + runs::run_words(&ws[from..]);
        top = with_run(ws, from, to, top)?;
        at = to;
    }
    Ok(top)
}

// What is chosen in a pattern: among the second run, the third and so on, the first last.
pub fn choose(ws: &[u32]) -> Result<Option<Pick>, TooMany>
    requires { (length ws.now ≤ token_pool) × Whole ws.now × AllTold (segments (tokens_in ws.now)) }
    ensures { (winner_says ws.now result ≡ in_pattern (tokens_in ws.now)) × IfOk result (Kept ws.now) }
{
    let first = runs::run_words(ws);
    let later = later_runs(ws, first)?;
    with_run(ws, 0, first, later)
}
