// Bytes to a kept line: where the line stands, one byte after the other.
// The kept bytes lie with whoever holds the line, so that a byte is stored in place and no array travels.
ghost use Rattle.std.specs.Prelude.{◌≡◌, ◌<◌};
ghost use Rattle.line.specs.Line.{most, Within, fresh_pos, ends_of, drops_of, quoted_of, counted_of, moved_of};

// How many bytes there is room for in a line.
pub const MOST: usize = 40;

// How many bytes are kept, whether a quote is open, whether the line is too long.
#[derive(Clone, Copy)]
pub struct Pos {
    pub len: usize,
    pub quoted: bool,
    pub long: bool,
}

// What a byte does: it ends the line, is kept at its place, or is dropped.
#[derive(Clone, Copy)]
pub enum Act {
    Ends,
    Keeps(usize),
    Drops,
}

#[derive(Clone, Copy)]
pub struct Moved {
    pub pos: Pos,
    pub act: Act,
}

// A line that kept nothing. No `Default`: the clause says which place it is.
pub fn fresh_pos() -> Pos
    ensures { result ≡ fresh_pos }
{
    Pos {
        len: 0,
        quoted: false,
        long: false,
    }
}

// `q` and `b` here and below: the quotes before a byte, and the byte. They stay two, as the definitions take them: a state and an input.
fn ends(q: bool, b: u8) -> bool
    ensures { result ≡ ends_of q b }
{
    (b == b'\n') | (!q & (b == b';'))
}

fn drops(q: bool, b: u8) -> bool
    ensures { result ≡ drops_of q b }
{
    !q & ((b <= 0x20) & ((b != 0x11) & (b != 0x13)))
}

fn quote(q: bool, b: u8) -> bool
    ensures { result ≡ quoted_of q b }
{
    if b == b'"' { !q } else { q }
}

// The byte is kept, and there is room for it.
fn stored(p: Pos, b: u8) -> Moved
    requires { p.len < most }
    ensures { result ≡ counted_of p b }
{
    Moved {
        pos: Pos {
            len: p.len + 1,
            quoted: quote(p.quoted, b),
            ..p
        },
        act: Act::Keeps(p.len),
    }
}

// The byte is counted; the first one past `MOST` makes the line too long.
fn counted(p: Pos, b: u8) -> Moved
    ensures { result ≡ counted_of p b }
{
    if p.len < MOST {
        return stored(p, b);
    }
    Moved {
        pos: Pos {
            len: MOST,
            quoted: quote(p.quoted, b),
            long: true,
        },
        act: Act::Drops,
    }
}

// Nearly all bytes neither end a line nor are dropped, whether a quote is open or not: these come first.
pub fn advance(p: Pos, b: u8) -> Moved
    ensures moved { result ≡ moved_of p b }
    ensures within { Within result.act }
{
    if b'"' < b && b != b';' && p.len < MOST {
        return stored(p, b);
    }
    if ends(p.quoted, b) {
        return Moved {
            pos: p,
            act: Act::Ends,
        };
    }
    if drops(p.quoted, b) {
        return Moved {
            pos: p,
            act: Act::Drops,
        };
    }
    counted(p, b)
}
