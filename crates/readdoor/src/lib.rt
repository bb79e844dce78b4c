// Translated from boreal's boreal-parser/src/hex_string.rs (MIT OR Apache-2.0), commit 7010b5e967; see NOTICE.
// The door by which any bytes are read as a pattern.
#![tactic(auto)]

ghost use Rattle.std.specs.Prelude.{◌≡◌, length};
ghost use Rattle.def_meaning.specs.Limits.{token_pool};
ghost use Rattle.def_reading.specs.Lists.{reading};
ghost use Rattle.readdoor.specs.Door.{read_said, read_says, read_leaves, TextSays};

use base::{Refusal, Refused, TEXT_LIMIT, TOKEN_POOL};
use reader::Point;

// The offset reached, and the words used.
#[derive(Clone, Copy, Debug, PartialEq, Eq)]
pub struct Reading {
    pub end: usize,
    pub words: usize,
}

// Into a pool of just the words that are lent.
fn read_text(text: &[u8], pool: &mut [u32]) -> Result<Reading, Refused>
    requires { length pool.old ≡ token_pool }
    ensures { TextSays (reading text.now) result pool.old pool.new }
{
    if TEXT_LIMIT < text.len() {
        return Err(Refusal::TextTooLong.into());
    }
    if digits::peek(text, 0) != b'{' {
        return Err(Refusal::Unexpected.into());
    }
    let from = Point {
        at: digits::skip_blanks(text, 1),
        count: 0,
        words: 0,
    };
    let Some(got) = reader::read_list(text, from, 1, pool)? else {
        return Err(Refused {
            why: Refusal::Unexpected,
            place: from.at,
        });
    };
    if digits::peek(text, got.to.at) != b'}' {
        return Err(Refused {
            why: Refusal::Unexpected,
            place: got.to.at,
        });
    }
    Ok(Reading {
        end: digits::skip_blanks(text, got.to.at + 1),
        words: got.to.words,
    })
}

// Reads a text's tokens into the first 4,096 words of the pool, and zeroes those that are not used.
pub fn read(text: &[u8], pool: &mut [u32]) -> Result<Reading, Refused>
    ensures { (read_said result ≡ read_says text.now pool.old)
        × (pool.new ≡ read_leaves text.now pool.old) }
{
    if pool.len() < TOKEN_POOL {
        return Err(Refusal::NoRoom.into());
    }
    let r = read_text(text, &mut pool[0..TOKEN_POOL]);
    let used = match r {
        Ok(read) => read.words,
        Err(_) => 0,
    };
    pool[used..TOKEN_POOL].fill(0);
    r
}
