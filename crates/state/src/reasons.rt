// The reasons' numbers.
ghost use Rattle.std.specs.Prelude.{◌≡◌};
ghost use Rattle.state.specs.Reasons.{number_of, passes_of};

use crate::Reason;

pub fn reason_number(why: Reason) -> u64
    ensures { result ≡ number_of why }
{
    u64::from(why)
}

pub fn passes(why: Reason) -> bool
    ensures { result ≡ passes_of why }
{
    why == Reason::None
}

impl From<Reason> for u64 {
    ghost from_gives = { λ why n. n ≡ number_of why };

    fn from(why: Reason) -> u64 {
        why as u64
    }
}
