// Document 01, "Weight" and "Curve, zero and tare": from a sample to the shown value, and how far zeros and tares may go.
#![tactic(auto)]

ghost use Rattle.std.specs.Prelude.{◌≡◌, ◌≤◌, ◌^◌, nat_abs};
ghost use Rattle.weight.specs.Weight.{as_cell, corrected, tenths, less, above_zeros, gross, net, in_tenths};
ghost use Rattle.weight.specs.Ranges.{ScaleIn};

pub mod display;
pub mod limits;
pub mod sets;
pub mod zero;

pub use limits::Limits;

// A number on the cell's scale: a sample, a point of the curve, u. It and the three after it are types of one shape, so that no sum mixes what they
// count. Their bounds stand in clauses, since `is_ranged` (state) answers on units with any numbers.
#[derive(Clone, Copy)]
pub struct Cell(pub i64);

// A weight in tenths of a digit, and one in displayed digits. Only `gross_of` makes digits of tenths, and only `tare_in_tenths` tenths of digits.
#[derive(Clone, Copy)]
pub struct Tenths(pub i64);

#[derive(Clone, Copy)]
pub struct Digits(pub i64);

// The number that stands for a shown value in a reply.
#[derive(Clone, Copy)]
pub struct Figure(pub i64);

// L, W and C.
#[derive(Clone, Copy)]
pub struct Curve {
    pub l: Cell,
    pub w: Cell,
    pub c: u64,
}

// What a weight is worked out by.
#[derive(Clone, Copy)]
pub struct Scale {
    pub curve: Curve,
    pub gca: u64,
    pub gde: u64,
    pub nov: u64,
    pub rsn: u64,
}

// Where a number stands by two limits: three cases, each of which a reader asks for.
#[derive(Clone, Copy, PartialEq)]
pub enum Place {
    Within,
    Over,
    Under,
}

// What is shown. No `Result`: over and under are shown as well as a number is.
#[derive(Clone, Copy)]
pub enum Shown {
    Number(Digits),
    Over,
    Under,
}

// ---- the weight

// A sample on the cell's scale.
impl From<i32> for Cell {
    ghost from_gives = { λ x c. c ≡ as_cell x };

    fn from(x: i32) -> Cell {
        Cell(i64::from(x))
    }
}

// u.
#[tactic(auto, using(whole::specs::Bits::sub_eq), unfolding(crate::specs::Weight::corrected))]
pub fn corrected_sample(s: Scale, x: Cell) -> Cell
    requires { ScaleIn s × (nat_abs x.0 ≤ 1599999) }
    ensures { result ≡ corrected s x }
{
    let u = whole::round_mul_div(x.0 - s.curve.l.0, s.gca, s.gde);
    Cell(u)
}

// v, the only place where it is worked out.
#[tactic(auto, using(crate::specs::Ranges::sizes, whole::specs::Bits::sub_eq, whole::specs::Bits::same_eq), unfolding(crate::specs::Weight::tenths))]
pub fn in_tenths(s: Scale, x: Cell) -> Tenths
    requires { ScaleIn s × (nat_abs x.0 ≤ 1599999) }
    ensures { result ≡ tenths s x }
{
    let u = corrected_sample(s, x);
    let span = (s.curve.w.0 - s.curve.l.0).unsigned_abs();
    let v = whole::round_mul_div(u.0, 10 * s.nov * s.curve.c, span * 1_000_000);
    Tenths(v)
}

#[tactic(auto, using(whole::specs::Bits::sub_eq), unfolding(crate::specs::Weight::less))]
pub fn less_by(a: Tenths, b: Tenths) -> Tenths
    requires { (nat_abs a.0 ≤ 2 ^ 60) × (nat_abs b.0 ≤ 2 ^ 60) }
    ensures { result ≡ less a b }
{
    Tenths(a.0 - b.0)
}

// g.
#[tactic(auto, using(crate::specs::Ranges::less_to))]
pub fn above_zeros(v: Tenths, z0: Tenths, z1: Tenths) -> Tenths
    requires { (nat_abs v.0 ≤ 2 ^ 40) × ((nat_abs z0.0 ≤ 2 ^ 40) × (nat_abs z1.0 ≤ 2 ^ 40)) }
    ensures { result ≡ above_zeros v z0 z1 }
{
    less_by(less_by(v, z0), z1)
}

// The only way from tenths to digits. It takes RSN alone, and not 0, which `Limits` does not say; it fits, so `as`.
pub fn gross_of(rsn: u64, g: Tenths) -> Digits
    requires { (nat_abs g.0 ≤ 2 ^ 40) × ((1 ≤ rsn) × (rsn ≤ 50)) }
    ensures { result ≡ gross rsn g }
{
    let n = whole::round_mul_div(g.0, 1, 10 * rsn);
    Digits(n * (rsn as i64))
}

// net. `less_by` in digits: a trait for both would be longer than the two.
#[tactic(auto, using(whole::specs::Bits::sub_eq), unfolding(crate::specs::Weight::net))]
pub fn net_of(g: Digits, tare: Digits) -> Digits
    requires { (nat_abs g.0 ≤ 2 ^ 60) × (nat_abs tare.0 ≤ 2 ^ 60) }
    ensures { result ≡ net g tare }
{
    Digits(g.0 - tare.0)
}

// 10·tare, the only way from digits to tenths.
#[tactic(auto, using(whole::specs::Bits::mul_eq), unfolding(crate::specs::Weight::in_tenths))]
pub fn tare_in_tenths(tare: Digits) -> Tenths
    requires { nat_abs tare.0 ≤ 2 ^ 40 }
    ensures { result ≡ in_tenths tare }
{
    Tenths(tare.0 * 10)
}
