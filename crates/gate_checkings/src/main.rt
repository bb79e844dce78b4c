// Answers the lines of the file `programs`, each a haystack, the two bounds of a window and node words, by the doors that take programs. The words are any
// words: what a text cannot compile to is tried here. What the program must write, the file `stdout`, was made outside: README.md beside it says how.
#![tactic(auto)]

ghost use Rattle.std.specs.Prelude.{◌≤◌};

use nodes::NodeWord;
use std::io;

// The mirror into a pool of so many words: what it answers, what is left of the pool, and the used words.
fn mirrored<P: Print, const ROOM: usize>(rt: &P, name: &str, program: &[NodeWord]) -> io::Result<()>
    requires { ROOM ≤ 516 }
{
    let mut pool = [gatekit::OLD; ROOM];
    print!(rt; "\n{name}")?;
    let used = match mirror::mirror(program, &mut pool) {
        Ok(n) => {
            print!(rt; " {n}")?;
            n
        }
        Err(why) => {
            print!(rt; " refused {}", why.number())?;
            0
        }
    };
    gatekit::left(rt, &pool, used, 512)?;
    for w in pool.iter().take(used) {
        print!(rt; " {w:x}")?;
    }
    Ok(())
}

// The mirror has a pool with room, and one that is a word too short.
fn answers<P: Print>(
    rt: &P,
    program: &[NodeWord],
    hay: &[u8],
    start: usize,
    end: usize,
) -> io::Result<()> {
    let word = if sound::is_sound(program) {
        "sound"
    } else {
        "unsound"
    };
    print!(rt; "{word}\nforward")?;
    gatekit::found(rt, checkdoors::forward(program, hay, start, end))?;
    print!(rt; "\nleft")?;
    gatekit::hex(rt, checkdoors::left_forward(program, hay, start, end))?;
    print!(rt; "\nreverse")?;
    gatekit::found(rt, checkdoors::reverse(program, hay, start, end))?;
    mirrored::<P, 516>(rt, "mirror", program)?;
    mirrored::<P, 511>(rt, "short", program)?;
    print!(rt; "\n")
}

// The word that is spelt in hex, by its last sixteen digits.
fn word(hex: &[u8]) -> NodeWord {
    hex.iter().fold(0, |w: NodeWord, c| {
        w.wrapping_mul(16).wrapping_add(gatekit::value(*c).into())
    })
}

// The words that are spelt in hex, a byte before each, as far as there is room; how many they are.
fn unhex_words(text: &[u8], pool: &mut [NodeWord]) -> usize {
    let mut rest = text;
    for (n, place) in pool.iter_mut().enumerate() {
        let Some((_, spelt)) = rest.split_first() else {
            return n;
        };
        let (hex, after) = spelt.split_at(gatekit::blank(spelt));
        *place = word(hex);
        rest = after;
    }
    pool.len()
}

// A haystack in hex, the window's bounds, and the words in hex.
fn case<P: Print>(rt: &P, line: &[u8]) -> io::Result<()> {
    let (spelt, rest) = line.split_at(gatekit::blank(line));
    let Some((_, window)) = rest.split_first() else {
        return Ok(());
    };
    let Ok(Some(start)) = digits::number(window, 0) else {
        return Ok(());
    };
    let Ok(Some(end)) = digits::number(window, start.end) else {
        return Ok(());
    };
    let Some(words) = window.get(end.stop..) else {
        return Ok(());
    };
    let mut hay = [0u8; 512];
    let n = gatekit::unhex(spelt, &mut hay);
    let mut pool: [NodeWord; 600] = [0; 600];
    let count = unhex_words(words, &mut pool).min(600);
    // `as`: the library has no From<u32> for usize.
    let (start, end) = (start.value as usize, end.value as usize);
    answers(rt, &pool[..count], &hay[..n], start, end)
}

// Of a line that is no heading the first bytes, and then the answers.
fn line<P: Print>(rt: &P, l: &[u8]) -> io::Result<()> {
    if gatekit::heading(rt, l)? {
        return Ok(());
    }
    gatekit::show(rt, l)?;
    case(rt, l)
}

// The three lines are those of other programs, with a file and a case of this one's.
fn main(rt: HostRuntime) -> io::Result<()> {
    let mut text = [0u8; 65536];
    let n = gatekit::load(&rt, b"programs", &mut text)?;
    gatekit::each_line(&text[..n], |l| line(&rt, l))
}
