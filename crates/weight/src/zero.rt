// The zeros' bands, the first zeroing and tracking. LFT, ZSE and TAS are numbers here, as the unit holds them (`Limits`).
ghost use Rattle.std.specs.Prelude.{◌≡◌, ◌≤◌, ◌^◌, nat_abs};
ghost use Rattle.weight.specs.Zero.{within_share, later_share, first_share, first_zero, tracked_value, tracks, moved, tracked};

use crate::{Digits, Limits, Tenths};

// CDL's band in percent of NOV.
pub fn later_share(lft: u64) -> u64
    ensures { result ≡ later_share lft }
{
    if lft == 0 { 20 } else { 2 }
}

// The first zeroing's band in percent of NOV, by ZSE.
pub fn first_share(zse: u64) -> u64
    ensures { result ≡ first_share zse }
{
    match zse {
        0 => 0,
        1 => 2,
        2 => 5,
        3 => 10,
        _ => 20,
    }
}

// What is shown, not yet rounded.
#[tactic(auto, using(crate::specs::Ranges::in_tenths_to))]
pub fn tracked_value(tas: u64, g: Tenths, tare: Digits) -> Tenths
    requires { (nat_abs g.0 ≤ 2 ^ 40) × (nat_abs tare.0 ≤ 100000) }
    ensures { result ≡ tracked_value tas g tare }
{
    if tas == 0 {
        crate::less_by(g, crate::tare_in_tenths(tare))
    } else {
        g
    }
}

// One tenth on in the direction of s.
#[tactic(auto, using(whole::specs::Bits::same_eq, whole::specs::Order::between), unfolding(crate::specs::Zero::moved))]
pub fn moved_toward(z1: Tenths, s: Tenths) -> Tenths
    requires { nat_abs z1.0 ≤ 2 ^ 40 }
    ensures { result ≡ moved z1 s }
{
    Tenths(z1.0 + s.0.signum())
}

// |z| is at most p % of NOV. It asks for NOV alone, and `first_zero` too, as `is_tracked` does for RSN: `Limits` would ask for both.
#[tactic(auto, using(whole::specs::Bits::same_eq), unfolding(crate::specs::Zero::within_share))]
pub fn within_share(p: u64, nov: u64, z: Tenths) -> bool
    requires { (p ≤ 100) × ((nov ≤ 100000) × (nat_abs z.0 ≤ 2 ^ 40)) }
    ensures { result ≡ within_share p nov z }
{
    z.0.unsigned_abs() * 100 <= p * (10 * nov)
}

// z0 as the first zeroing sets it.
#[tactic(auto, unfolding(crate::specs::Zero::first_zero))]
pub fn first_zero(zse: u64, nov: u64, v: Tenths) -> Tenths
    requires { (nov ≤ 100000) × (nat_abs v.0 ≤ 2 ^ 40) }
    ensures { result ≡ first_zero zse nov v }
{
    if within_share(first_share(zse), nov, v) {
        v
    } else {
        Tenths(0)
    }
}

// Off 0 by less than half a step, that is 5·RSN tenths.
#[tactic(auto, using(whole::specs::Bits::same_eq), unfolding(crate::specs::Zero::tracks))]
pub fn is_tracked(rsn: u64, s: Tenths) -> bool
    requires { rsn ≤ 50 }
    ensures { result ≡ tracks rsn s }
{
    let n = s.0.unsigned_abs();
    (0 < n) & (n < 5 * rsn)
}

impl Limits {
    // z1 as one steady sample tracks it.
    #[tactic(auto, using(crate::proofs::ZeroLaws::moved_to), unfolding(crate::specs::Zero::tracked))]
    pub fn tracked_zero(self, z1: Tenths, s: Tenths) -> Tenths
        requires { nat_abs z1.0 ≤ 2 ^ 30 }
        ensures { result ≡ tracked self.rsn self.nov z1 s }
    {
        let z = moved_toward(z1, s);
        let before = within_share(2, self.nov, z1);
        let after = within_share(2, self.nov, z);
        let tracks = is_tracked(self.rsn, s) & (before & after);
        if tracks { z } else { z1 }
    }
}
