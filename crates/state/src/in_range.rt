// A unit that is known to be within its ranges.
ghost use Rattle.state.specs.RangedLaws.{Ranged};

use crate::Unit;

// Made by `InRange::new` (ranged.rt), which looks, and where a proof says that a unit is in range. Behind it nothing overflows and no divisor is 0.
#[derive(Clone, Copy)]
pub struct InRange {
    pub unit: Unit,
    pub ghost ranged: { Ranged unit },
}
