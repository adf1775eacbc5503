// Signed whole numbers: their sign and size, the sets that they are taken from, and a product divided and rounded.
#![tactic(auto)]

ghost use Rattle.std.specs.Prelude.{◌≡◌, true, ◌+◌, ◌*◌, ◌<◌, ◌^◌, ℤ, pos, nat_abs, ◌*ℤ◌};
ghost use Rattle.std.specs.Int.Signed.{non_neg};
ghost use Rattle.whole.specs.Round.{round_nat, round_div, like};
ghost use Rattle.whole.specs.Sets.{Between, has};

// A number by its sign, whether it is at least 0, and its size: both always count.
#[derive(Clone, Copy, PartialEq)]
pub struct Whole {
    pub plus: bool,
    pub n: u64,
}

impl From<i64> for Whole {
    ghost from_gives = { λ x w. w ≡ record { plus = non_neg x; n = nat_abs x } };

    fn from(x: i64) -> Whole {
        Whole {
            plus: 0 <= x,
            n: x.unsigned_abs(),
        }
    }
}

impl From<u64> for Whole {
    ghost from_gives = { λ n w. w ≡ record { plus = true; n = n } };

    fn from(n: u64) -> Whole {
        Whole { plus: true, n }
    }
}

impl Whole {
    // From lo to hi.
    pub fn is_between(self, lo: u64, hi: u64) -> bool
        ensures { result ≡ has (Between lo hi) self.plus self.n }
    {
        self.plus & (lo..=hi).contains(&self.n)
    }
}

// The size m under the sign of x. It fits, so `as`: the `Err` of a `try_from` would never come.
pub fn signed_as(x: i64, m: u64) -> i64
    requires { m < 2 ^ 63 }
    ensures { result ≡ like x m }
{
    let n = m as i64;
    if x < 0 { -n } else { n }
}

// n / d to the nearest whole number, a half upwards.
#[tactic(auto, unfolding(crate::specs::Round::round_nat))]
pub fn round_nat(n: u64, d: u64) -> u64
    requires { (0 < d) × (2 * n + 2 * d < 2 ^ 64) }
    ensures { result ≡ round_nat n d }
{
    (2 * n + d) / (2 * d)
}

// x * m / d to the nearest whole number; of two that are equally near, the larger in size. The work is done on sizes, where nothing wraps.
#[tactic(auto, using(crate::proofs::RoundLaws::round_le, crate::proofs::RoundLaws::round_div_mul, crate::specs::Bits::same_eq))]
pub fn round_mul_div(x: i64, m: u64, d: u64) -> i64
    requires { (0 < d) × (2 * (nat_abs x * m) + 2 * d < 2 ^ 63) }
    ensures { result ≡ round_div (x *ℤ pos m) d }
{
    let q = round_nat(x.unsigned_abs() * m, d);
    signed_as(x, q)
}
