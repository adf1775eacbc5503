// What the programs do alike: reading lines and serving them, the bytes that wait to be written, and the lines that are no command's.
#![tactic(auto)]

ghost use Rattle.std.specs.Io.KnownBytes.{Consumes};
ghost use Rattle.std.specs.Prelude.{◌≡◌, true, ◌+◌, ◌-◌, ◌≤◌, leb, length, get_or, set, take, None};
ghost use Rattle.cases.specs.Pick.{pick};
ghost use Rattle.session.specs.declared.State.{State as TheState};
ghost use Rattle.state.specs.Sound.{sound_of};
ghost use Rattle.pipe.specs.Happened.{happened_of};

use session::{Event, State};
use state::in_range::InRange;
use state::{Unit, changes};
use std::fmt;
use std::io::Read;

// So many bytes are read and written at once.
pub const LARGE: usize = 65536;

// The unit of a program: it is sound, and stays so.
#[derive(Clone, Copy)]
pub struct SoundUnit {
    pub unit: Unit,
    ghost sound: { sound_of unit ≡ true },
}

impl SoundUnit {
    // A sound unit needs no look at its ranges.
    pub fn in_range(self) -> InRange
        ensures { result.unit ≡ self.unit }
    {
        InRange { unit: self.unit }
    }

    // A sample or a restart; no other line changes the unit here.
    pub fn happened(self, e: Option<Event>) -> SoundUnit
        ensures { result.unit ≡ happened_of self.unit e }
    {
        SoundUnit {
            unit: happened(self.unit, e),
        }
    }
}

// The same of a bare unit, for a loop that holds one: by the method, which hands on a new `SoundUnit`, a restart takes 1.2 times as long.
pub fn happened(u: Unit, e: Option<Event>) -> Unit
    requires { sound_of u ≡ true }
    ensures sound { sound_of result ≡ true }
    ensures said { result ≡ happened_of u e }
{
    match e {
        Some(Event::Sample(x, still)) => weighing::take_sample(InRange { unit: u }, x, still),
        Some(Event::Restart) => changes::restart(u),
        Some(Event::Command) | None => u,
    }
}

// The first o bytes, if there are so many: of any slice and count, which `Waiting` would narrow. Nothing is promised: no clause can say what a
// terminal takes, so what is written is run and compared (decision 33, docs/DECISIONS.md). Where writing fails, no one is left to tell: the lines
// that follow are taken as ever.
pub fn write<P: Print>(rt: &P, out: &[u8], o: usize) {
    if let Some(waits) = out.get(..o) {
        let _ = rt.write_all(waits);
    }
}

// A reply fits behind o bytes of n.
fn fits(n: usize, o: usize) -> bool
    requires { 17 ≤ n }
    ensures { result ≡ leb (o + 17) n }
{
    o <= n - reply::ROOM
}

// Where a reply fits: behind the o bytes that wait, or at the start once they are written. It reads the room and no more.
pub fn place<P: Print>(rt: &P, out: &[u8], o: usize) -> usize
    requires { 17 ≤ length out.now }
    ensures room { result + 17 ≤ length out.now }
    ensures behind { result ≡ pick (leb (o + 17) (length out.now)) o 0 }
{
    if fits(out.len(), o) {
        return o;
    }
    write(rt, out, o);
    0
}

// The bytes that wait to be written, at the front of a room in which any reply fits. The room is the caller's, of any length, so it is a slice and a
// count: no heap, and fixed memory.
#[derive(Drop)]
pub struct Waiting<'a, P: Print> {
    pub rt: &'a P,
    pub bytes: &'a mut [u8],
    pub len: usize,
    ghost room: { 17 ≤ length bytes.now },
}

impl<'a, P: Print> Waiting<'a, P> {
    pub fn write(&self) {
        write(self.rt, self.bytes, self.len);
    }

    // A reply fits behind what waits, which is written first where it does not.
    pub fn place(&mut self)
        ensures room { self.new.len + 17 ≤ length self.new.bytes.now }
        ensures behind { self.new.len ≡ pick (leb (self.old.len + 17) (length self.old.bytes.now)) self.old.len 0 }
        ensures kept { self.new.bytes.now ≡ self.old.bytes.now }
        ensures same_reference { self.new.bytes.ghost_name ≡ self.old.bytes.ghost_name }
    {
        if !fits(self.bytes.len(), self.len) {
            self.write();
            self.len = 0;
        }
    }

    // The byte is the last that waits.
    pub fn put(&mut self, b: u8)
        ensures rest { (1 ≤ self.new.len) × (self.new.bytes.now ≡ set self.old.bytes.now (self.new.len - 1) b) }
        ensures last { get_or self.new.bytes.now (self.new.len - 1) 0 ≡ b }
        ensures same_reference { self.new.bytes.ghost_name ≡ self.old.bytes.ghost_name }
    {
        self.place();
        self.bytes[self.len] = b;
        self.len += 1;
    }

    // A line of no form is marked.
    pub fn marked(&mut self, e: Option<Event>)
        ensures none { e ≡ None → get_or self.new.bytes.now (self.new.len - 1) 0 ≡ 0x0a }
        ensures other { (e ≡ None → ⊥) → (self.new.len ≡ self.old.len) × (self.new.bytes.now ≡ self.old.bytes.now) }
        ensures same_reference { self.new.bytes.ghost_name ≡ self.old.bytes.ghost_name }
    {
        if e.is_none() {
            self.put(b'!');
            self.put(b'\n');
        }
    }
}

// Text and numbers wait as any byte does, so that `write!` can put them.
impl<P: Print> fmt::Write for Waiting<'_, P> {
    fn write_str(&mut self, s: &str) -> fmt::Result {
        for b in s.bytes() {
            self.put(b);
        }
        Ok(())
    }
}

// What a program does with the lines that it reads.
pub trait Lines: Copy {
    // Where the line stands.
    ghost stands: { Self → TheState };

    // Takes some bytes; what is printed waits.
    fn serve<P: Print>(self, bytes: &mut [u8], out: &mut Waiting<P>) -> Self;

    fn state(&self) -> State
        ensures { result ≡ stands self.now };
}

// How many bytes were read: they stand at the front, and are those that the input lost, where these are known. A read that fails
// ends the input: this stays a function that cannot fail.
pub fn read<R: Read>(input: &mut R, buf: &mut [u8]) -> usize
    ensures most { result ≤ length buf.old }
    ensures front { Consumes (R.remaining input.old) (R.remaining input.new) (take result buf.new) }
{
    input.read(buf).unwrap_or(0)
}

// Takes all lines of the input; a last line without its LF counts as ended. What is printed is written before more is read, so that it comes at a
// terminal too. A proved loop has to end, and nothing says that the input does: the turns are counted up to a number that no run comes to. That it
// ends and stays in bounds is all that is promised: what it does shows in what is written alone, as of `write`.
pub fn run<P: Print, R: Read, L: Lines>(rt: &P, input: &mut R, start: L) {
    let mut lines = start;
    let mut buf = [0u8; LARGE];
    let mut room = [0u8; LARGE];
    for _ in 0..u64::MAX {
        let n = read(input, &mut buf);
        if n == 0 {
            break;
        }
        lines = served(rt, lines, &mut buf[..n], &mut room);
    }
    if session::has_begun(lines.state()) {
        served(rt, lines, &mut [b'\n'], &mut room);
    }
}

fn served<P: Print, L: Lines>(rt: &P, lines: L, bytes: &mut [u8], room: &mut [u8]) -> L
    requires { 17 ≤ length room.old }
{
    let mut out = Waiting {
        rt,
        bytes: room,
        len: 0,
    };
    let after = lines.serve(bytes, &mut out);
    out.write();
    after
}
