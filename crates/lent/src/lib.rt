// The events on a unit that is lent: one thin function for each, above the operations by value. None has a condition.
#![tactic(auto)]

ghost use Rattle.std.specs.Prelude.{◌≡◌, length};
ghost use Rattle.cases.specs.Run.{room_of};
ghost use Rattle.serving.specs.Machine.{taken_of};
ghost use Rattle.wire.specs.Wire.{sampled, restarted, block_of};
ghost use Rattle.lent.specs.Lent.{counts_of};

use serving::Taken;
use state::Unit;

// How many bytes of a block were taken, and how many were written into the room.
#[derive(Clone, Copy)]
pub struct Counts {
    pub taken: usize,
    pub written: usize,
}

pub fn on_bytes(u: &mut Unit, bytes: &[u8], room: &mut [u8]) -> Counts
    ensures unit { u.new ≡ (block_of u.old (length room.old) bytes.now).next }
    ensures counts { result ≡ counts_of (block_of u.old (length room.old) bytes.now) }
    ensures room { room.new ≡ room_of (block_of u.old (length room.old) bytes.now) room.old }
{
    let t = wire::take(*u, bytes, room);
    *u = t.next;
    Counts {
        taken: t.taken,
        written: t.written,
    }
}

pub fn on_sample(u: &mut Unit, x: i32, still: bool)
    ensures { u.new ≡ sampled u.old x still }
{
    *u = wire::sample(*u, x, still);
}

pub fn on_restart(u: &mut Unit)
    ensures { u.new ≡ restarted u.old }
{
    *u = wire::restart(*u);
}

// The same events for a caller that holds its unit by value: it need not make a reference itself. Each promises its own event, so they are three and
// not one that takes the event as a closure.
pub fn lend_bytes(u: Unit, bytes: &[u8], room: &mut [u8]) -> Taken
    ensures taken { result ≡ taken_of (block_of u (length room.old) bytes.now) }
    ensures room { room.new ≡ room_of (block_of u (length room.old) bytes.now) room.old }
{
    let mut v = u;
    let n = on_bytes(&mut v, bytes, room);
    Taken {
        next: v,
        taken: n.taken,
        written: n.written,
    }
}

pub fn lend_sample(u: Unit, x: i32, still: bool) -> Unit
    ensures { result ≡ sampled u x still }
{
    let mut v = u;
    on_sample(&mut v, x, still);
    v
}

pub fn lend_restart(u: Unit) -> Unit
    ensures { result ≡ restarted u }
{
    let mut v = u;
    on_restart(&mut v);
    v
}
