// What the display range, the zeros' bands and the step of tracking are worked out by.
ghost use Rattle.std.specs.Prelude.{◌≤◌};

// LFT, NOV and RSN, the last two no larger than their sets allow. A code is a number, as the unit holds it: `is_ranged` (state) answers on any.
#[derive(Clone, Copy)]
pub struct Limits {
    pub lft: u64,
    pub nov: u64,
    pub rsn: u64,
    ghost nov_to: { nov ≤ 100000 },
    ghost rsn_to: { rsn ≤ 50 },
}
