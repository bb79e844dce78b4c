// Translated from boreal's boreal/src/matcher/literals.rs (MIT OR Apache-2.0), commit 7010b5e967; see NOTICE.
// What wins so far, and one more slice against it.
#![tactic(auto)]

ghost use Rattle.std.specs.Prelude.{◌≡◌, true, List, ℕ, ◌-◌, ◌≤◌, length, take, drop, Some};
ghost use Rattle.base.specs.declared.Refusal.TheVariants.{TooManyLiterals};
ghost use Rattle.def_picking.specs.Runs.{Slice};
ghost use Rattle.def_picking.specs.Candidates.{ranked, widened, against};
ghost use Rattle.entries.specs.Words.{tokens_in};
ghost use Rattle.picks.specs.Ranks.{rank_says, pick_says, winner_says, Beaten};

use base::{Refusal, Refused};

// A slice has too many literals: whatever else is there, so has the pattern.
#[derive(Clone, Copy, Debug, PartialEq, Eq)]
pub struct TooMany;

// No byte of a text is to blame for them.
impl From<TooMany> for Refused {
    ghost from_gives = { λ _ r. (r.why ≡ TooManyLiterals) × (r.place ≡ 0) };

    fn from(_too_many: TooMany) -> Self {
        Refusal::TooManyLiterals.into()
    }
}

// What wins: the words of a slice, from one place to another, and its rank.
#[derive(Clone, Copy, Debug, PartialEq, Eq)]
pub struct Pick {
    pub from: usize,
    pub to: usize,
    pub rank: u32,
}

// What wins so far: a pick, if there is one yet, or too many literals somewhere. The functions below take the whole of it, since what may not change is
// that they answer for every winner.
pub type Winner = Result<Option<Pick>, TooMany>;

// A slice's rank, if it is not skipped, or too many literals.
pub type Rank = Result<Option<u32>, TooMany>;

impl Pick {
    // The words that are taken of a run.
    pub fn words(self, run: &[u32]) -> &[u32]
        requires { (self.from ≤ self.to) × (self.to ≤ length run.now) }
        ensures { result.now ≡ take (self.to - self.from) (drop self.from run.now) }
    {
        &run[self.from..self.to]
    }
}

// No rank up to this one changes what is chosen.
pub fn beaten(best: Winner, rank: u32) -> bool
    ensures { result ≡ true → Beaten best rank }
{
    let Ok(best) = best else {
        return true;
    };
    match best {
        None => false,
        Some(b) => rank <= b.rank,
    }
}

fn challenge(best: Option<Pick>, new: Pick) -> Pick
    ensures { (run : List ℕ) (s : Slice) → widened s ≡ tokens_in (take (new.to - new.from) (drop new.from run)) → pick_says run (Some result) ≡ against (pick_says run best) s (ranked new.rank) }
{
    match best {
        None => new,
        Some(b) if new.rank <= b.rank => b,
        Some(_) => new,
    }
}

// One more slice, whose words with the literal parts on either side are from `from` to `to`.
pub fn ranked_against(best: Winner, from: usize, to: usize, rank: Rank) -> Winner
    ensures { (run : List ℕ) (s : Slice) → widened s ≡ tokens_in (take (to - from) (drop from run)) → winner_says run result ≡ against (winner_says run best) s (rank_says rank) }
{
    let best = best?;
    match rank? {
        None => Ok(best),
        Some(rank) => Ok(Some(challenge(best, Pick { from, to, rank }))),
    }
}
