// Translated from boreal's boreal/src/matcher/literals.rs (MIT OR Apache-2.0), commit 7010b5e967; see NOTICE.
// The door by which the search literals of any bytes, read as a pattern, are picked.
#![tactic(auto)]

ghost use Rattle.std.specs.Prelude.{◌≡◌, true, ◌≤◌, length};
ghost use Rattle.def_meaning.specs.Limits.{literal_limit, token_pool};
ghost use Rattle.def_picking.specs.Literals.{literals as literalsOf};
ghost use Rattle.def_picking.specs.Numbers.{count};
ghost use Rattle.def_picking.specs.Runs.{plain_alternatives, segments};
ghost use Rattle.def_picking.specs.Candidates.{pick, taking};
ghost use Rattle.entries.specs.Words.{tokens_in};
ghost use Rattle.picks.specs.Ranks.{pick_says};
ghost use Rattle.runs.specs.Whole.{Whole};
ghost use Rattle.chooser.specs.Kept.{Kept, AllTold};
ghost use Rattle.literaldoor.specs.Door.{literals_said, literals_says, bytes_left, lengths_left, HandsOut};

use base::{Refusal, Refused, TOKEN_POOL};
use picks::Pick;

// What is picked of a text: the offset reached, as in reading, how many literals, and their rank.
#[derive(Clone, Copy, Debug, PartialEq, Eq)]
pub struct Picked {
    pub reached: usize,
    pub count: usize,
    pub rank: u32,
}

// All literals of the words that were taken; or none of them, for want of room. The offset reached is handed down for the answer.
// Nothing taken is no literal of rank 0: the literals of no words would be one, the empty one.
fn write_winner(
    ws: &[u32],
    reached: usize,
    winner: Option<Pick>,
    bytes: &mut [u8],
    lengths: &mut [u16],
) -> Result<Picked, Refused>
    requires { (length ws.now ≤ token_pool) × Kept ws.now winner }
    ensures { HandsOut reached (taking (pick_says ws.now winner)) (literals_said result) bytes.old lengths.old bytes.new lengths.new }
{
    let Some(taken) = winner else {
        return Ok(Picked {
            reached,
            count: 0,
            rank: 0,
        });
    };
    // Where there is no room, nothing is written, and the answer says no count: a match, since both answers are told here.
    match generator::write_all(taken.words(ws), bytes, lengths) {
        Ok(count) => Ok(Picked {
            reached,
            count,
            rank: taken.rank,
        }),
        Err(why) => Err(Refused { why, place: 0 }),
    }
}

// 19, then 17, then 18.
fn pick_tokens(
    ws: &[u32],
    reached: usize,
    bytes: &mut [u8],
    lengths: &mut [u16],
) -> Result<Picked, Refused>
    requires { (length ws.now ≤ token_pool) × Whole ws.now × (plain_alternatives (tokens_in ws.now) ≡ true → AllTold (segments (tokens_in ws.now))) }
    ensures { HandsOut reached (pick (tokens_in ws.now)) (literals_said result) bytes.old lengths.old bytes.new lengths.new }
{
    if !entries::plain_alternatives(ws) {
        return Err(Refusal::NotPlain.into());
    }
    let winner = chooser::choose(ws)?;
    write_winner(ws, reached, winner, bytes, lengths)
}

// Picks the literals of a text. The tokens are read into words of the stack. Bytes and lengths are lent apart, as the C interface has them.
pub fn literals(text: &[u8], bytes: &mut [u8], lengths: &mut [u16]) -> Result<Picked, Refused>
    ensures { (literals_said result ≡ literals_says text.now bytes.old lengths.old)
        × (bytes.new ≡ bytes_left text.now bytes.old lengths.old)
        × (lengths.new ≡ lengths_left text.now bytes.old lengths.old) }
{
    let mut tokens = [0u32; TOKEN_POOL];
    let read = readdoor::read(text, &mut tokens)?;
    pick_tokens(&tokens[..read.words], read.end, bytes, lengths)
}
