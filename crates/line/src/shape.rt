// A kept line to its shape: three letters and a parameter of one of four kinds.
ghost use Rattle.std.specs.Prelude.{◌≡◌, ◌^◌, ◌<◌, take};
ghost use Rattle.line.specs.Shape.{Small, is_letter, fold_of, is_plain, all_of, digits_of, signed_of, number_of, text_of, param_for, command_of, shape_of};

use crate::cut::MOST;
use crate::names::{Letters, Name, called_by};

// A number that was read. A type of its own: what a number may be grows here.
#[derive(Clone, Copy)]
pub struct Number(pub i64);

// What follows the letters, in four kinds: nothing is one that commands ask for, so there is no `Option` of the others. A text is a place and a
// length within the line, and not a slice: `text_within` (specs/PlaceLaws) says where it lies, and a command lends nothing.
#[derive(Clone, Copy)]
pub enum Param {
    Nothing,
    Query,
    Number(Number),
    Text { start: usize, len: usize },
}

// A line that is well-formed and whose name is a command's.
#[derive(Clone, Copy)]
pub struct Command {
    pub name: Name,
    pub param: Param,
}

// Why a line is no command.
#[derive(Clone, Copy, PartialEq)]
pub enum Fault {
    Malformed,
    Unknown,
}

fn is_letter(b: u8) -> bool
    ensures { result ≡ is_letter b }
{
    b.is_ascii_alphabetic()
}

// A letter in upper case.
fn fold(b: u8) -> u8
    ensures { result ≡ fold_of b }
{
    b.to_ascii_uppercase()
}

// One to ten digits.
fn read_digits(s: &[u8]) -> Option<u64>
    ensures value { result ≡ digits_of s.now }
    ensures small { Small result }
{
    if !(1..=10).contains(&s.len()) {
        return None;
    }
    let mut v: u64 = 0;
    for &b in s {
        if !b.is_ascii_digit() {
            return None;
        }
        v = v * 10 + u64::from(b - b'0');
    }
    Some(v)
}

// A size with its sign. `signed_as` of crate whole takes the sign from a number, and this crate stands on none.
fn signed(negative: bool, size: u64) -> i64
    requires { size < 10 ^ 10 }
    ensures { result ≡ signed_of negative size }
{
    let n = size.cast_signed();
    if negative { -n } else { n }
}

// The digits of a number, after its sign if it has one.
fn read_number(negative: bool, s: &[u8]) -> Option<Param>
    ensures { result ≡ number_of negative s.now }
{
    let size = read_digits(s)?;
    Some(Param::Number(Number(signed(negative, size))))
}

// What a text may hold.
fn is_plain(b: u8) -> bool
    ensures { result ≡ is_plain b }
{
    (0x20..=0x7e).contains(&b) && b != b'"'
}

fn all_plain(s: &[u8]) -> bool
    ensures { result ≡ all_of is_plain s.now }
{
    s.iter().all(|&b| is_plain(b))
}

// What follows the opening quote of a text.
fn read_text(s: &[u8]) -> Option<Param>
    ensures { result ≡ text_of s.now }
{
    let [text @ .., b'"'] = s else {
        return None;
    };
    if !all_plain(text) {
        return None;
    }
    Some(Param::Text {
        start: 4,
        len: text.len(),
    })
}

// What follows the three letters, which are given folded: a form for one name alone is to be read here.
fn read_param(letters: Letters, t: &[u8]) -> Option<Param>
    ensures { result ≡ param_for letters t.now }
{
    match t {
        [] => Some(Param::Nothing),
        [b'?', rest @ ..] => rest.is_empty().then_some(Param::Query),
        [b'"', text @ ..] => read_text(text),
        [b'-', digits @ ..] => read_number(true, digits),
        [b'+', digits @ ..] => read_number(false, digits),
        _ => read_number(false, t),
    }
}

// A well-formed line, by its name: malformed comes before unknown.
fn look_up(n: Letters, x: Option<Param>) -> Result<Command, Fault>
    ensures { result ≡ command_of n x }
{
    let param = x.ok_or(Fault::Malformed)?;
    let name = called_by(n).ok_or(Fault::Unknown)?;
    Ok(Command { name, param })
}

// A line's shape. The letters are folded before the parameter is read, and looked up after it.
pub fn read_line(s: &[u8]) -> Result<Command, Fault>
    ensures { result ≡ shape_of s.now }
{
    let [a, b, c, t @ ..] = s else {
        return Err(Fault::Malformed);
    };
    if is_letter(*a) & is_letter(*b) & is_letter(*c) {
        let n = Letters([fold(*a), fold(*b), fold(*c)]);
        return look_up(n, read_param(n, t));
    }
    Err(Fault::Malformed)
}

// The shape of a kept line, of which the bytes and their number come apart, as its holder has them.
pub fn shape_of(kept: [u8; MOST], len: usize) -> Result<Command, Fault>
    ensures { result ≡ shape_of (take len kept) }
{
    read_line(&kept[..len.min(MOST)])
}
