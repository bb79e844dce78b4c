// The door by which any bytes are compiled as a pattern: its programs, forwards and in reverse.
#![tactic(auto)]

ghost use Rattle.std.specs.Prelude.{◌≡◌};
ghost use Rattle.def_reading.specs.Lists.{reading};
ghost use Rattle.compiledoor.specs.Door.{compile_said, TextFills, compile_says, forward_leaves, reverse_leaves};

use base::{NODE_POOL, Refusal, Refused, TOKEN_POOL};
use compiler::compile_tokens;
use nodes::NodeWord;
use readdoor::read;

// The offset reached, as in reading, and the words of each program.
#[derive(Clone, Copy, Debug, PartialEq, Eq)]
pub struct Compiled {
    pub reached: usize,
    pub forward: usize,
    pub reverse: usize,
}

// Into pools of just the words that are lent. The tokens are read into 4,096 words of the stack.
fn compile_text(
    text: &[u8],
    forward: &mut [NodeWord; NODE_POOL],
    reverse: &mut [NodeWord; NODE_POOL],
) -> Result<Compiled, Refused>
    ensures { TextFills (reading text.now) (compile_said result)
        forward.old forward.new reverse.old reverse.new }
{
    let mut tokens = [0; TOKEN_POOL];
    let got = match read(text, &mut tokens) {
        Ok(got) => got,
        // Zeroed here and not beforehand: compiling writes every word itself.
        Err(why) => {
            *forward = [0; NODE_POOL];
            *reverse = [0; NODE_POOL];
            return Err(why);
        }
    };
    let sizes = compile_tokens(&tokens[..got.words], forward, reverse).map_err(|why| Refused {
        why,
        place: 0,
    })?;
    Ok(Compiled {
        reached: got.end,
        forward: sizes.forward,
        reverse: sizes.reverse,
    })
}

// Compiles a text into the first 512 words of each pool.
pub fn compile(
    text: &[u8],
    forward: &mut [NodeWord],
    reverse: &mut [NodeWord],
) -> Result<Compiled, Refused>
    ensures { (compile_said result ≡ compile_says text.now forward.old reverse.old)
        × (forward.new ≡ forward_leaves text.now forward.old reverse.old)
        × (reverse.new ≡ reverse_leaves text.now forward.old reverse.old) }
{
    if forward.len() < NODE_POOL {
        return Err(Refusal::NoRoom.into());
    }
    if reverse.len() < NODE_POOL {
        return Err(Refusal::NoRoom.into());
    }
    let forward = forward.first_chunk_mut().unwrap();
    let reverse = reverse.first_chunk_mut().unwrap();
    compile_text(text, forward, reverse)
}
