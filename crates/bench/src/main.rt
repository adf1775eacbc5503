// The bench program: lines from standard input to a unit, and its replies to standard output (document 01, the paragraph on the bench program).
// What a line is says `session`; what the unit does says `serving` of its bytes, `weighing` of a sample and `state` of a restart. Here bytes are
// only carried.
#![tactic(auto)]

ghost use Rattle.std.specs.Prelude.{◌≡◌, ◌≤◌, ◌<◌, length, get_or};
ghost use Rattle.session.specs.WalkLaws.{Walked};

use pipe::{Lines, SoundUnit, Waiting};
use session::{Event, State};

// The unit, and where the line stands.
#[derive(Clone, Copy)]
struct Bench {
    sound: SoundUnit,
    state: State,
}

// Where a line stands: its state, and the bytes of its command that are not handed on yet, from `from` to `to`.
#[derive(Clone, Copy)]
struct Line {
    state: State,
    from: usize,
    to: usize,
}

// LF stands for the CR LF that closes a reply of w bytes; so many it has then.
fn closed(room: &mut [u8], w: usize) -> usize
    requires { w ≤ length room.old }
    ensures { result ≤ w }
{
    if 2 <= w {
        room[w - 2] = b'\n';
        return w - 1;
    }
    0
}

// A line's bytes from `at` on, to its LF or to the end of what was read: the state is `session`'s, and the command's bytes are those that it hands on.
// It goes by places, since it hands places back.
fn scan(s: State, buf: &[u8], at: usize) -> Line
    requires { at ≤ length buf.now }
    ensures walked { Walked s buf.now at result.state result.from result.to }
    ensures ended { result.to < length buf.now → get_or buf.now result.to 0 ≡ 0x0a }
{
    let mut state = s;
    let mut from = at;
    for to in at..buf.len() {
        if buf[to] == b'\n' {
            return Line { state, from, to };
        }
        let t = session::step(state, buf[to]);
        state = t.next;
        if !t.pass {
            from = to + 1;
        }
    }
    Line {
        state,
        from,
        to: buf.len(),
    }
}

impl Lines for Bench {
    ghost stands = { λ b. b.state };

    // A command's bytes are handed on where they lie, once its line or what was read ends; ';' takes the LF's place. The room is for one reply only,
    // so that each is seen to end. The unit goes by value through as few functions as can be: its copies are what a line costs. The loops go by
    // places: a line ends where its walk does, and a block where the unit stops; an iterator over lines would look for each LF twice.
    fn serve<P: Print>(self, bytes: &mut [u8], out: &mut Waiting<P>) -> Bench {
        // A loop's variable loses its type's invariant: so the bare unit goes through the loops, whose own invariants say that it is sound.
        let mut unit = self.sound.unit;
        let mut state = self.state;
        let mut from = 0;
        while from < bytes.len() {
            let line = scan(state, bytes, from);
            state = line.state;
            from = line.from;
            let mut to = line.to;
            if to < bytes.len() {
                match session::ended(state) {
                    Some(Event::Command) => {
                        bytes[to] = b';';
                        to += 1;
                    }
                    None => out.marked(None),
                    e => unit = pipe::happened(unit, e),
                }
                state = State::Start;
            }
            while from < to {
                out.place();
                let end = out.len + reply::ROOM;
                let room = &mut out.bytes[out.len..end];
                let t = serving::serve(SoundUnit { unit }.in_range(), &bytes[from..to], room);
                unit = t.next;
                from += t.taken;
                out.len += closed(room, t.written);
            }
            from = line.to + 1;
        }
        Bench {
            sound: SoundUnit { unit },
            state,
        }
    }

    fn state(&self) -> State {
        self.state
    }
}

fn main(rt: HostRuntime) {
    let start = Bench {
        sound: SoundUnit { unit: wire::new() },
        state: State::Start,
    };
    pipe::run(&rt, &mut rt.stdin(), start);
}
