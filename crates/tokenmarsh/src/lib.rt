// The doors as C functions: include/tokenmarsh.h documents them. An answer is a struct by value, since C has no enum with fields: its `refusal` is 0 where
// there is none, and a field of which the answer makes no use is 0 too. A `usize` has no `From` to a `u64`, and C no slices to hand a window on in.
#![tactic(auto)]

ghost use Rattle.std.specs.Prelude.{◌≡◌, cond, ◌+◌, ◌*◌};
ghost use Rattle.def_meaning.specs.Values.{Bytes};
ghost use Rattle.def_meaning.specs.Words.{sound};
ghost use Rattle.mirror.specs.MirrorDoor.{mirror_said, mirror_says, mirror_leaves};
ghost use Rattle.compiledoor.specs.Door.{compile_said, compile_says, forward_leaves, reverse_leaves};
ghost use Rattle.checkdoors.specs.Doors.{check_said, forward_says, reverse_says};
ghost use Rattle.literaldoor.specs.Door.{literals_said, literals_says, bytes_left, lengths_left};
ghost use Rattle.readdoor.specs.Door.{read_said, read_says, read_leaves};
ghost use Rattle.tokenmarsh.specs.Results.{read_told, compile_told, literals_told, mirror_told, check_told, tail_told};

use base::{Refusal, Refused};
use compiledoor::Compiled;
use literaldoor::Picked;
use nodes::NodeWord;
use readdoor::Reading;

// major * 65536 + minor * 256 + patch, of 0.4.0: a caller compares it with its header's TM_VERSION, since structs, words and refusals may differ between versions.
#[unsafe(no_mangle)]
pub extern "C" fn tm_version() -> u32
    ensures { result ≡ 0 * 65536 + 4 * 256 + 0 }
{
    4 * 256
}

#[repr(C)]
#[derive(Clone, Copy, Debug, Default, PartialEq, Eq)]
pub struct ReadResult {
    pub refusal: u32,
    pub place: u64,
    pub reached: u64,
    pub words: u64,
}

impl From<Result<Reading, Refused>> for ReadResult {
    ghost from_gives = { λ r s. s ≡ read_told (read_said r) };

    fn from(r: Result<Reading, Refused>) -> Self {
        match r {
            Ok(read) => Self {
                reached: read.end as u64,
                words: read.words as u64,
                ..Self::default()
            },
            Err(refused) => Self {
                refusal: refused.why.number(),
                place: refused.place as u64,
                ..Self::default()
            },
        }
    }
}

#[unsafe(no_mangle)]
pub extern "C" fn tm_read(text: &[u8], pool: &mut [u32]) -> ReadResult
    ensures { (result ≡ read_told (read_says text.now pool.old)) × (pool.new ≡ read_leaves text.now pool.old) }
{
    readdoor::read(text, pool).into()
}

#[repr(C)]
#[derive(Clone, Copy, Debug, Default, PartialEq, Eq)]
pub struct CompileResult {
    pub refusal: u32,
    pub place: u64,
    pub reached: u64,
    pub forward: u64,
    pub reverse: u64,
}

impl From<Result<Compiled, Refused>> for CompileResult {
    ghost from_gives = { λ r s. s ≡ compile_told (compile_said r) };

    fn from(r: Result<Compiled, Refused>) -> Self {
        match r {
            Ok(made) => Self {
                reached: made.reached as u64,
                forward: made.forward as u64,
                reverse: made.reverse as u64,
                ..Self::default()
            },
            Err(refused) => Self {
                refusal: refused.why.number(),
                place: refused.place as u64,
                ..Self::default()
            },
        }
    }
}

#[unsafe(no_mangle)]
pub extern "C" fn tm_compile(
    text: &[u8],
    forward: &mut [NodeWord],
    reverse: &mut [NodeWord],
) -> CompileResult
    ensures { (result ≡ compile_told (compile_says text.now forward.old reverse.old))
        × (forward.new ≡ forward_leaves text.now forward.old reverse.old)
        × (reverse.new ≡ reverse_leaves text.now forward.old reverse.old) }
{
    compiledoor::compile(text, forward, reverse).into()
}

#[repr(C)]
#[derive(Clone, Copy, Debug, Default, PartialEq, Eq)]
pub struct LiteralsResult {
    pub refusal: u32,
    pub rank: u32,
    pub place: u64,
    pub reached: u64,
    pub count: u64,
}

impl From<Result<Picked, Refused>> for LiteralsResult {
    ghost from_gives = { λ r s. s ≡ literals_told (literals_said r) };

    fn from(r: Result<Picked, Refused>) -> Self {
        match r {
            Ok(picked) => Self {
                rank: picked.rank,
                reached: picked.reached as u64,
                count: picked.count as u64,
                ..Self::default()
            },
            Err(refused) => Self {
                refusal: refused.why.number(),
                place: refused.place as u64,
                ..Self::default()
            },
        }
    }
}

#[unsafe(no_mangle)]
pub extern "C" fn tm_literals(text: &[u8], bytes: &mut [u8], lengths: &mut [u16]) -> LiteralsResult
    ensures { (result ≡ literals_told (literals_says text.now bytes.old lengths.old))
        × (bytes.new ≡ bytes_left text.now bytes.old lengths.old)
        × (lengths.new ≡ lengths_left text.now bytes.old lengths.old) }
{
    literaldoor::literals(text, bytes, lengths).into()
}

#[unsafe(no_mangle)]
pub extern "C" fn tm_sound(program: &[NodeWord]) -> u32
    ensures { result ≡ cond (sound program.now) 1 0 }
{
    u32::from(sound::is_sound(program))
}

#[repr(C)]
#[derive(Clone, Copy, Debug, Default, PartialEq, Eq)]
pub struct MirrorResult {
    pub refusal: u32,
    pub words: u64,
}

impl From<Result<usize, Refusal>> for MirrorResult {
    ghost from_gives = { λ r s. s ≡ mirror_told (mirror_said r) };

    fn from(r: Result<usize, Refusal>) -> Self {
        match r {
            Ok(n) => Self {
                words: n as u64,
                ..Self::default()
            },
            Err(why) => Self {
                refusal: why.number(),
                ..Self::default()
            },
        }
    }
}

#[unsafe(no_mangle)]
pub extern "C" fn tm_mirror(program: &[NodeWord], pool: &mut [NodeWord]) -> MirrorResult
    ensures { (result ≡ mirror_told (mirror_says program.now pool.old)) × (pool.new ≡ mirror_leaves program.now pool.old) }
{
    mirror::mirror(program, pool).into()
}

#[repr(C)]
#[derive(Clone, Copy, Debug, Default, PartialEq, Eq)]
pub struct CheckResult {
    pub refusal: u32,
    pub found: u32,
    pub offset: u64,
}

impl From<Result<Option<usize>, Refusal>> for CheckResult {
    ghost from_gives = { λ r s. s ≡ check_told (check_said r) };

    fn from(r: Result<Option<usize>, Refusal>) -> Self {
        match r {
            Ok(Some(n)) => Self {
                found: 1,
                offset: n as u64,
                ..Self::default()
            },
            Ok(None) => Self::default(),
            Err(why) => Self {
                refusal: why.number(),
                ..Self::default()
            },
        }
    }
}

#[unsafe(no_mangle)]
pub extern "C" fn tm_forward(
    program: &[NodeWord],
    haystack: &[u8],
    start: usize,
    end: usize,
) -> CheckResult
    ensures { (result ≡ check_told (forward_says program.now haystack.now start end)) × Bytes haystack.now }
{
    checkdoors::forward(program, haystack, start, end).into()
}

#[unsafe(no_mangle)]
pub extern "C" fn tm_reverse(
    program: &[NodeWord],
    haystack: &[u8],
    start: usize,
    end: usize,
) -> CheckResult
    ensures { (result ≡ check_told (reverse_says program.now haystack.now start end)) × Bytes haystack.now }
{
    checkdoors::reverse(program, haystack, start, end).into()
}

#[repr(C)]
#[derive(Clone, Copy, Debug, Default, PartialEq, Eq)]
pub struct TailResult {
    pub offset: u64,
    pub length: u64,
}

// The part of the haystack that the second forward door hands back: C has no slice to return.
#[unsafe(no_mangle)]
pub extern "C" fn tm_tail(
    program: &[NodeWord],
    haystack: &[u8],
    start: usize,
    end: usize,
) -> TailResult
    ensures { result ≡ tail_told end (forward_says program.now haystack.now start end) }
{
    match checkdoors::forward(program, haystack, start, end) {
        Ok(Some(n)) => TailResult {
            offset: n as u64,
            length: (end - n) as u64,
        },
        _ => TailResult::default(),
    }
}
