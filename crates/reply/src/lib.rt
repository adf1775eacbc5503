// Values to the bytes of a reply, and the writer, which is lent the room from some place on.
#![tactic(auto)]

ghost use Rattle.std.specs.Prelude.{◌≡◌, ◌≤◌, [], ◌∷◌, length, nat_abs};
ghost use Rattle.reply.specs.Reply.{ROOM, reply_of, fitting, over, digits_of, sign_of, crlf, done_text, refused_text, digits_text, blank_digits, pair_text, signed_text, status_text, word_text};
ghost use Rattle.reply.specs.Push.{pushes};

// The most bytes that a reply has.
pub const ROOM: usize = 17;

// A reply: the first `len` bytes. The others are zero. The room is fixed and nothing is on a heap, so the length stands beside the bytes.
#[derive(Clone, Copy)]
pub struct Reply {
    pub bytes: [u8; ROOM],
    pub len: usize,
}

// A reply with more behind it. Each step takes it and hands it on, so that it is built in place.
impl Reply {
    // Bytes more, where there is room for all of them: one test and one copy. The result is made of its two fields: a copy of the whole struct takes
    // along the gap between them, in pieces, at every step (of queries 75 instructions a line).
    fn push(self, s: &[u8]) -> Reply
        requires { length s.now ≤ ROOM }
        ensures { result ≡ pushes self s.now }
    {
        let at = self.len;
        if ROOM - s.len() < at {
            return self;
        }
        let mut bytes = self.bytes;
        bytes[at..at + s.len()].copy_from_slice(s);
        Reply {
            bytes,
            len: at + s.len(),
        }
    }

    // N digits, the last one first; of a number that has more, the last ones. The loop names the places: how much of the number is left goes by them. A digit fits, so `as`.
    fn digits<const N: usize>(self, n: u64) -> Reply
        requires { N ≤ ROOM }
        ensures { result ≡ pushes self (digits_of N n) }
    {
        let mut digits = [0u8; N];
        let mut rest = n;
        for i in (0..N).rev() {
            digits[i] = b'0' + (rest % 10) as u8;
            rest /= 10;
        }
        self.push(&digits)
    }

    // The sign, a blank or '-', and 7 digits of the size.
    fn signed(self, x: i64) -> Reply
        ensures { result ≡ pushes (pushes self (sign_of x ∷ [])) (digits_of 7 (nat_abs x)) }
    {
        let sign = if x.is_negative() { b'-' } else { b' ' };
        self.push(&[sign]).digits::<7>(x.unsigned_abs())
    }

    fn end(self) -> Reply
        ensures { result ≡ pushes self crlf }
    {
        self.push(b"\r\n")
    }
}

// No bytes at all: what an empty line and a done RES reply.
pub fn empty() -> Reply
    ensures { result ≡ reply_of [] }
{
    Reply {
        bytes: [0u8; ROOM],
        len: 0,
    }
}

// The fixed replies are two functions, for each promises a text of its own: with the byte as a parameter nothing would be shorter.
pub fn done() -> Reply
    ensures { result ≡ reply_of done_text }
{
    empty().push(b"0\r\n")
}

pub fn refused() -> Reply
    ensures { result ≡ reply_of refused_text }
{
    empty().push(b"?\r\n")
}

// N digits; of a number that has more, the last ones, here and below. A width is a constant, so that its room is seen where it is written.
pub fn digits<const N: usize>(n: u64) -> Reply
    requires { N ≤ 15 }
    ensures { result ≡ reply_of (digits_text N n) }
{
    empty().digits::<N>(n).end()
}

// A number that is held without a sign: GCA? and GDE? with 6 digits, NOV? with 7. A blank and `digits`, but a text of its own (`blank_digits`).
pub fn blank<const N: usize>(n: u64) -> Reply
    requires { N ≤ 14 }
    ensures { result ≡ reply_of (blank_digits N n) }
{
    empty().push(b" ").digits::<N>(n).end()
}

// CWT?.
pub fn pair(waiting: u64, used: u64) -> Reply
    ensures { result ≡ reply_of (pair_text waiting used) }
{
    let first = empty().digits::<7>(waiting);
    first.push(b",").digits::<7>(used).end()
}

// LDW?, LWT?, TAV?, and MSV? at COF3.
pub fn signed(x: i64) -> Reply
    ensures { result ≡ reply_of (signed_text x) }
{
    empty().signed(x).end()
}

// MSV? at COF9. The address is a parameter: it is 31 until units have one of their own.
pub fn with_status(x: i64, address: u64, status: u64) -> Reply
    ensures { result ≡ reply_of (status_text x address status) }
{
    empty()
        .signed(x)
        .push(b",")
        .digits::<2>(address)
        .push(b",")
        .digits::<3>(status)
        .end()
}

// MSV? with 4 bytes at COF0, and with 2 at COF2.
pub fn word<const W: usize>(x: i64) -> Reply
    requires { W ≤ 8 }
    ensures { result ≡ reply_of (word_text W x) }
{
    let bytes = x.to_be_bytes();
    empty().push(&bytes[8 - W..]).end()
}

// The reply goes to the front of the part of the room that is lent, and the rest of the part stays; a part that is too short stays whole.
pub fn put(room: &mut [u8], q: Reply) -> usize
    ensures { (result ≡ length (fitting room.old q)) × (room.new ≡ over (fitting room.old q) room.old) }
{
    let n = q.len.min(ROOM);
    if room.len() < n {
        return 0;
    }
    room[..n].copy_from_slice(&q.bytes[..n]);
    n
}
