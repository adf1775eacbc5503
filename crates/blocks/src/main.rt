// Blocks and rooms: `b`, blank, room, blank, hex hands a unit one block with a room of so many bytes, and prints how many bytes were taken, how
// many were written, and these in hex. `s` and `r` are the bench's, and all else prints `!` (compare/README.md, "The raw form").
#![tactic(auto)]

ghost use Rattle.std.specs.Prelude.{◌≡◌, ◌≤◌, ◌<◌, IfSome};
ghost use Rattle.blocks.specs.Hex.{hex_of};

use pipe::{Lines, SoundUnit, Waiting};
use session::{Event, State};
use std::fmt::Write;

// A block has at most so many bytes, and a room too; a line that asks for more is none.
const MOST: usize = 1024;

const DIGITS: [u8; 16] = *b"0123456789abcdef";

// Where a line of a block stands; a room that was read is held.
#[derive(Clone, Copy)]
enum Stage {
    // Nothing was read yet.
    Start,
    // `b`
    B,
    // `b` blank
    Blank,
    // `b` blank room, or the first digits of it
    Room(usize),
    // `b` blank room blank, and whole bytes
    Whole(usize),
    // The same, and the first digit of a byte.
    Half(usize, u8),
    // No block's line begins so.
    Other,
}

// The unit, the line twice, as a block's and as any other, and the block's bytes: an array and how many of it, since memory is fixed.
#[derive(Clone, Copy)]
struct Blocks {
    sound: SoundUnit,
    stage: Stage,
    state: State,
    bytes: [u8; MOST],
    len: usize,
}

// A hex digit's value. By ranges: a `char` and its `to_digit` take longer.
fn value(b: u8) -> Option<u8>
    ensures below { IfSome result (λ v. v < 16) }
    ensures said { result ≡ hex_of b }
{
    match b {
        b'0'..=b'9' => Some(b - b'0'),
        b'a'..=b'f' => Some(b - b'a' + 10),
        b'A'..=b'F' => Some(b - b'A' + 10),
        _ => None,
    }
}

// A room's digits and one more; past `MOST` it is no room. `session` grows a number of its own, with another type and end.
fn grown(room: usize, b: u8) -> Stage {
    if b.is_ascii_digit() && room <= MOST {
        return Stage::Room(room * 10 + usize::from(b - b'0'));
    }
    Stage::Other
}

// The stage after a byte of the line, and the byte of the block that it ended, if any. A digit's value is asked for only where one may stand: in one
// table with the stage and the byte it would be worked out for each byte.
fn moved(s: Stage, b: u8) -> (Stage, Option<u8>) {
    let stage = match (s, b) {
        (Stage::Start, b'b') => Stage::B,
        (Stage::B, b' ') => Stage::Blank,
        (Stage::Blank, _) => grown(0, b),
        (Stage::Room(n), b' ') => Stage::Whole(n),
        (Stage::Room(n), _) => grown(n, b),
        (Stage::Whole(n), _) => match value(b) {
            Some(high) => Stage::Half(n, high),
            None => Stage::Other,
        },
        (Stage::Half(n, high), _) => match value(b) {
            Some(low) => return (Stage::Whole(n), Some(high << 4 | low)),
            None => Stage::Other,
        },
        _ => Stage::Other,
    };
    (stage, None)
}

// A block, and the room of n bytes that it is given. Its digits come from a table: by `{b:02x}` a block with long replies took 1.3 times as long.
fn take<P: Print>(sound: SoundUnit, bytes: &[u8], n: usize, out: &mut Waiting<P>) -> SoundUnit
    requires { n ≤ 1024 }
{
    let mut room = [0u8; MOST];
    let t = wire::take(sound.unit, bytes, &mut room[..n]);
    let _ = write!(out, "{} {} ", t.taken, t.written);
    for &b in &room[..t.written] {
        out.put(DIGITS[usize::from(b / 16)]);
        out.put(DIGITS[usize::from(b % 16)]);
    }
    out.put(b'\n');
    SoundUnit { unit: t.next }
}

impl Blocks {
    // A byte of a line that is not its LF.
    fn read(&mut self, b: u8) {
        self.state = session::step(self.state, b).next;
        let (stage, ended) = moved(self.stage, b);
        self.stage = stage;
        let Some(byte) = ended else {
            return;
        };
        if MOST <= self.len {
            self.stage = Stage::Other;
            return;
        }
        self.bytes[self.len] = byte;
        self.len += 1;
    }

    // What the unit is after the line. Here a command's line is none.
    fn after<P: Print>(&self, out: &mut Waiting<P>) -> SoundUnit {
        match self.stage {
            Stage::Whole(n) if n <= MOST => {
                let bytes = self.bytes.get(..self.len).unwrap_or(&self.bytes);
                take(self.sound, bytes, n, out)
            }
            _ => {
                let e = session::ended(self.state).filter(|e| !matches!(e, Event::Command));
                out.marked(e);
                self.sound.happened(e)
            }
        }
    }
}

impl Lines for Blocks {
    ghost stands = { λ b. b.state };

    fn serve<P: Print>(self, bytes: &mut [u8], out: &mut Waiting<P>) -> Blocks {
        let mut now = self;
        for &b in bytes.iter() {
            if b != b'\n' {
                now.read(b);
                continue;
            }
            now = Blocks {
                sound: now.after(out),
                stage: Stage::Start,
                state: State::Start,
                len: 0,
                ..now
            };
        }
        now
    }

    fn state(&self) -> State {
        self.state
    }
}

fn main(rt: HostRuntime) {
    let start = Blocks {
        sound: SoundUnit { unit: wire::new() },
        stage: Stage::Start,
        state: State::Start,
        bytes: [0; MOST],
        len: 0,
    };
    pipe::run(&rt, &mut rt.stdin(), start);
}
