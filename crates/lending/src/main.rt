// One unit is lent to each event: a still sample, a tare, a restart. Printed are the replies: the tare taken, its value, and its value after the restart.
#![tactic(auto)]

ghost use Rattle.std.specs.Prelude.{◌≡◌};
ghost use Rattle.wire.specs.Wire.{block_of};

use state::Unit;

// Lends the unit to a block of bytes and prints what it replies.
fn ask(rt: &impl Print, u: Unit, bytes: &[u8]) -> Unit
    ensures { result ≡ (block_of u 64 bytes.now).next }
{
    let mut room = [0u8; 64];
    let t = lent::lend_bytes(u, bytes, &mut room);
    let _ = rt.write_all(&room[..t.written]);
    t.next
}

fn main(rt: HostRuntime) {
    let u = lent::lend_sample(wire::new(), 500000, true);
    let v = ask(&rt, u, b"TAR;TAV?;");
    ask(&rt, lent::lend_restart(v), b"TAV?;");
}
