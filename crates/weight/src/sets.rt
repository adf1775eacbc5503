// The sets that the scale's values and tares are taken from. Each has a function of its own, so that its limits stand once; what they share is `is_between`.
ghost use Rattle.std.specs.Prelude.{◌≡◌, ◌≤◌, nat_abs};
ghost use Rattle.cases.specs.Tests.{all_of};
ghost use Rattle.whole.specs.Sets.{has, inside};
ghost use Rattle.weight.specs.Sets.{gravities, loads, cells, nominals, steps, tares, spans, point_tests, curve_tests, scale_in};

use crate::{Cell, Curve, Digits, Scale};
use whole::Whole;

pub fn is_gravity(x: Whole) -> bool
    ensures { result ≡ has gravities x.plus x.n }
{
    x.is_between(970_000, 990_000)
}

pub fn is_load(x: Whole) -> bool
    ensures { result ≡ has loads x.plus x.n }
{
    x.is_between(200_000, 1_200_000)
}

pub fn is_cell(x: Cell) -> bool
    ensures { result ≡ inside cells x.0 }
{
    x.0.unsigned_abs() <= 1_599_999
}

pub fn is_nominal(x: Whole) -> bool
    ensures { result ≡ has nominals x.plus x.n }
{
    x.is_between(100, 100_000)
}

pub fn is_step(x: Whole) -> bool
    ensures { result ≡ has steps x.plus x.n }
{
    x.plus & matches!(x.n, 1 | 2 | 5 | 10 | 20 | 50)
}

// W - L is at least 10,000.
#[tactic(auto, using(whole::specs::Bits::sub_eq), unfolding(crate::specs::Sets::spans))]
pub fn span_ok(k: Curve) -> bool
    requires { (nat_abs k.l.0 ≤ 1599999) × (nat_abs k.w.0 ≤ 1599999) }
    ensures { result ≡ spans k }
{
    10_000 <= k.w.0 - k.l.0
}

// L, W and C within their sets, and W - L, which is looked at only where it fits.
fn points_in(k: Curve) -> bool
    ensures { result ≡ all_of (point_tests k) }
{
    is_cell(k.l) & is_cell(k.w) & is_load(Whole::from(k.c))
}

fn curve_in(k: Curve) -> bool
    ensures { result ≡ all_of (curve_tests k) }
{
    points_in(k) && span_ok(k)
}

#[tactic(auto, unfolding(crate::specs::Sets::scale_in))]
pub fn scale_in(s: Scale) -> bool
    ensures { result ≡ scale_in s }
{
    curve_in(s.curve)
        & is_gravity(Whole::from(s.gca))
        & is_gravity(Whole::from(s.gde))
        & is_nominal(Whole::from(s.nov))
        & is_step(Whole::from(s.rsn))
}

// No tare is further from 0 than NOV; LFT 0 allows one below 0. NOV is any number here, which `Limits` would not take.
pub fn tare_in(lft: u64, nov: u64, t: Digits) -> bool
    ensures { result ≡ inside (tares lft nov) t.0 }
{
    let x = Whole::from(t.0);
    ((lft == 0) | x.plus) & (x.n <= nov)
}
