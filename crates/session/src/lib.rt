// A line of the bench form, read byte by byte: a command, a sample, a restart, or none of them (document 01, the paragraph on the bench program).
// Lines are of any length, so no line is held: where it stands is a small state by value, and a command's bytes are handed on as they come.
#![tactic(auto)]

ghost use Rattle.std.specs.Prelude.{◌≡◌};
ghost use Rattle.session.specs.Form.{sample_of, signed_of};
ghost use Rattle.session.specs.Reader.{decimal, grown_of, digit_of, sign_of, more_of, next_of, stepped_of, begun_of, ended_of};

// The least x has this size; no digit is added to a greater one, so that any count of digits is taken.
const LEAST: u64 = 2147483648;

// The digits of x that were read, and 1 where a minus stands in front of them: `step` hands on any number here, and `ended` takes any other than 1 for
// no minus. This is no bool, which holds fewer; and a state is copied for each byte, which the gap that a bool leaves before a number makes slow.
#[derive(Clone, Copy)]
pub struct Decimal {
    pub minus: u64,
    pub size: u64,
}

// Where a line stands.
#[derive(Clone, Copy)]
pub enum State {
    // Nothing was read yet.
    Start,
    // `c`
    C,
    // `c` blank: all that follows is the command.
    Command,
    // `s`
    S,
    // `s` blank
    X,
    // `s` blank minus
    Minus,
    // `s` blank x, or the first digits of it
    Digits(Decimal),
    // `s` blank x blank
    Blank(Decimal),
    // `s` blank x blank, and 1 (true) or 0
    Flag(Decimal, bool),
    // `r`
    R,
    // No form begins so.
    Hopeless,
}

// The state after a byte, and whether the byte is one of a command: both always count.
#[derive(Clone, Copy)]
pub struct Stepped {
    pub next: State,
    pub pass: bool,
}

// What a whole line is; a line of no form is none.
#[derive(Clone, Copy)]
pub enum Event {
    Command,
    Sample(i32, bool),
    Restart,
}

// A size with one digit more; one that is too great already stays.
#[tactic(auto, unfolding(crate::specs::Reader::grown_of))]
fn grown(size: u64, digit: u8) -> u64
    ensures { result ≡ grown_of size digit }
{
    if LEAST < size {
        return size;
    }
    size * 10 + u64::from(digit)
}

#[tactic(auto, unfolding(crate::specs::Reader::digit_of, crate::specs::Form::is_digit))]
fn digit(d: Decimal, b: u8) -> State
    ensures { result ≡ digit_of d b }
{
    if !b.is_ascii_digit() {
        return State::Hopeless;
    }
    State::Digits(Decimal {
        size: grown(d.size, b - b'0'),
        ..d
    })
}

// The first digit, after a minus or without one.
fn first_digit(minus: bool, b: u8) -> State
    ensures { result ≡ digit_of (decimal minus 0) b }
{
    digit(
        Decimal {
            minus: u64::from(minus),
            size: 0,
        },
        b,
    )
}

// A minus or the first digit.
#[tactic(auto, unfolding(crate::specs::Reader::sign_of))]
fn sign(b: u8) -> State
    ensures { result ≡ sign_of b }
{
    if b == b'-' {
        return State::Minus;
    }
    first_digit(false, b)
}

// A digit more, or the blank after them.
#[tactic(auto, unfolding(crate::specs::Reader::more_of))]
fn more(d: Decimal, b: u8) -> State
    ensures { result ≡ more_of d b }
{
    if b == b' ' {
        return State::Blank(d);
    }
    digit(d, b)
}

// No form is left after a byte that is not named here. `sign` and `more` stand apart: in this table they cost 70 instructions a line.
#[tactic(auto, unfolding(crate::specs::Reader::first_of, crate::specs::Reader::flag_of))]
fn next(s: State, b: u8) -> State
    ensures { result ≡ next_of s b }
{
    match (s, b) {
        (State::Start, b'c') => State::C,
        (State::Start, b's') => State::S,
        (State::Start, b'r') => State::R,
        (State::C, b' ') => State::Command,
        (State::Command, _) => State::Command,
        (State::S, b' ') => State::X,
        (State::X, _) => sign(b),
        (State::Minus, _) => first_digit(true, b),
        (State::Digits(d), _) => more(d, b),
        (State::Blank(d), b'1') => State::Flag(d, true),
        (State::Blank(d), b'0') => State::Flag(d, false),
        _ => State::Hopeless,
    }
}

// A byte of the line that is not its LF. The bytes of a command alone are handed on.
pub fn step(s: State, b: u8) -> Stepped
    ensures { result ≡ stepped_of s b }
{
    Stepped {
        next: next(s, b),
        pass: matches!(s, State::Command),
    }
}

// A line has begun, and did not end.
pub fn has_begun(s: State) -> bool
    ensures { result ≡ begun_of s }
{
    !matches!(s, State::Start)
}

// x, if it is in signed 32 bits. Its sign is one `if`, which no call would shorten.
fn sampled(minus: bool, digits: u64, still: bool) -> Option<Event>
    ensures { result ≡ sample_of (signed_of minus digits) still }
{
    let size = i64::try_from(digits).ok()?;
    let x = if minus { -size } else { size };
    Some(Event::Sample(i32::try_from(x).ok()?, still))
}

// The line ends here: at its LF, or at the end of the input where bytes came after the last LF.
pub fn ended(s: State) -> Option<Event>
    ensures { result ≡ ended_of s }
{
    match s {
        State::Command => Some(Event::Command),
        State::Flag(d, still) => sampled(d.minus == 1, d.size, still),
        State::R => Some(Event::Restart),
        _ => None,
    }
}
