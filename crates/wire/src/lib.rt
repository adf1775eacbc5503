// The public operations, by value. A unit out of range comes back unchanged from each of them, so that none needs a condition.
#![tactic(auto)]

ghost use Rattle.std.specs.Prelude.{◌≡◌, length};
ghost use Rattle.cases.specs.Run.{room_of};
ghost use Rattle.state.specs.Changes.{new_unit};
ghost use Rattle.serving.specs.Machine.{taken_of};
ghost use Rattle.wire.specs.Wire.{sampled, restarted, read, block_of};

use serving::Taken;
use state::in_range::InRange;
use state::{Unit, changes, ranged};
use weighing::Reading;

pub fn new() -> Unit
    ensures { result ≡ new_unit }
{
    changes::new_unit()
}

// Each operation looks at the ranges by itself and promises its own event: a closure for what follows would have to carry that promise too. It looks
// by `is_ranged` and not by `InRange::new`, whose `Option` would copy the whole unit: a reading took half as many instructions again.
pub fn sample(u: Unit, x: i32, still: bool) -> Unit
    ensures { result ≡ sampled u x still }
{
    if ranged::is_ranged(u) {
        return weighing::take_sample(InRange { unit: u }, x, still);
    }
    u
}

pub fn restart(u: Unit) -> Unit
    ensures { result ≡ restarted u }
{
    if ranged::is_ranged(u) {
        return changes::restart(u);
    }
    u
}

pub fn reading(u: Unit) -> Reading
    ensures { result ≡ read u }
{
    if ranged::is_ranged(u) {
        return weighing::reading_now(InRange { unit: u });
    }
    Reading::Nothing
}

// The ranges are looked at once for a whole block: each line obeyed keeps them.
pub fn take(u: Unit, bytes: &[u8], room: &mut [u8]) -> Taken
    ensures taken { result ≡ taken_of (block_of u (length room.old) bytes.now) }
    ensures room { room.new ≡ room_of (block_of u (length room.old) bytes.now) room.old }
{
    if ranged::is_ranged(u) {
        return serving::serve(InRange { unit: u }, bytes, room);
    }
    Taken {
        next: u,
        taken: 0,
        written: 0,
    }
}
