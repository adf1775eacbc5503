// Over and under, and what a shown value reads as.
ghost use Rattle.std.specs.Prelude.{◌≡◌, ◌≤◌, ◌^◌, nat_abs};
ghost use Rattle.cases.specs.Pick.{pick};
ghost use Rattle.weight.specs.Display.{place_by, cell_place, highest, lowest, place_of, shown_at, figure_by, in_decimal, in_four, two_of, in_two};

use crate::{Cell, Digits, Figure, Limits, Place, Shown};

#[tactic(auto, using(whole::specs::Bits::same_eq), unfolding(crate::specs::Display::place_by))]
fn place_by(lo: i64, hi: i64, n: i64) -> Place
    ensures { result ≡ place_by lo hi n }
{
    if hi < n {
        Place::Over
    } else if n < lo {
        Place::Under
    } else {
        Place::Within
    }
}

pub fn cell_place(x: Cell) -> Place
    ensures { result ≡ cell_place x.0 }
{
    place_by(-1_599_999, 1_599_999, x.0)
}

impl Limits {
    // The largest gross that is shown, in hundredths of a digit.
    #[tactic(auto, unfolding(crate::specs::Display::highest))]
    pub fn highest_shown(self) -> u64
        ensures { result ≡ highest self.lft self.nov self.rsn }
    {
        match self.lft {
            0 => 160 * self.nov,
            1 | 2 => 100 * (self.nov + 9 * self.rsn),
            _ => 105 * self.nov,
        }
    }

    // The least, so far below zero.
    #[tactic(auto, unfolding(crate::specs::Display::lowest))]
    pub fn lowest_shown(self) -> u64
        ensures { result ≡ lowest self.lft self.nov self.rsn }
    {
        match self.lft {
            0 => 160 * self.nov,
            1 | 2 => 100 * (20 * self.rsn),
            _ => 2 * self.nov,
        }
    }

    // Both limits fit an i64, so `as`: the `Err` of a `try_from` would never come.
    #[tactic(auto, using(crate::specs::DisplayLaws::highest_to, crate::specs::DisplayLaws::lowest_to))]
    pub fn place_of(self, g: Digits) -> Place
        requires { nat_abs g.0 ≤ 2 ^ 40 }
        ensures { result ≡ place_of self.lft self.nov self.rsn g }
    {
        let high = self.highest_shown() as i64;
        let low = self.lowest_shown() as i64;
        place_by(-low, high, g.0 * 100)
    }
}

// ---- the shown value

// One `match` over a place, and so are `seen_at` and `read_at` (weighing), each for its result: three values as arguments would be no shorter.
pub fn shown_at(p: Place, n: Digits) -> Shown
    ensures { result ≡ shown_at p n }
{
    match p {
        Place::Within => Shown::Number(n),
        Place::Over => Shown::Over,
        Place::Under => Shown::Under,
    }
}

// What is shown: net at TAS0, else gross. `value_now` (weighing) has the same `if`, since it works out only the one that is shown.
pub fn net_or_gross(nets: bool, n: Digits, g: Digits) -> Digits
    ensures { result ≡ pick nets n g }
{
    if nets { n } else { g }
}

// A number as it is, and what over and under read as, which stands once for each format, below.
fn figure_by(over: i64, under: i64, s: Shown) -> Figure
    ensures { result ≡ figure_by over under s }
{
    match s {
        Shown::Number(n) => Figure(n.0),
        Shown::Over => Figure(over),
        Shown::Under => Figure(under),
    }
}

// In 7 digits.
pub fn in_decimal(s: Shown) -> Figure
    ensures { result ≡ in_decimal s }
{
    figure_by(9_999_999, -9_999_999, s)
}

// In four bytes.
pub fn in_four(s: Shown) -> Figure
    ensures { result ≡ in_four s }
{
    figure_by(0x7fff_ffff, -0x8000_0000, s)
}

// In two bytes, which have limits of their own.
fn two_of(n: Digits) -> Figure
    ensures { result ≡ two_of n }
{
    let s = shown_at(place_by(-32_767, 32_766, n.0), n);
    figure_by(0x7fff, -0x8000, s)
}

pub fn in_two(s: Shown) -> Figure
    ensures { result ≡ in_two s }
{
    match s {
        Shown::Number(n) => two_of(n),
        _ => figure_by(0x7fff, -0x8000, s),
    }
}
