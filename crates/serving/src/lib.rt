// A block served by a unit that is in range, for callers that know that it is: `wire`, which looks, and programs that are proved to.
#![tactic(auto)]

ghost use Rattle.std.specs.Prelude.{◌≡◌, length};
ghost use Rattle.cases.specs.Run.{run_of, room_of};
ghost use Rattle.serving.specs.Machine.{machine, taken_of};

use line::cut::{self, Act, MOST};
use state::in_range::InRange;
use state::{Unit, changes};

// What a block of bytes did: the unit after it, and how many bytes were taken and written.
#[derive(Clone, Copy)]
pub struct Taken {
    pub next: Unit,
    pub taken: usize,
    pub written: usize,
}

// Bytes are taken until they end or the free room could be too short for a reply. The line lies apart from the unit while it comes in, since
// a store at a place that only the run knows would keep the whole unit from being held in parts; at a line's end it is put back, and the
// unit takes what the line changed. How many bytes were taken is a result, and counted as one: no byte is looked up by it.
#[tactic(auto, using(crate::proofs::TurnLaws::leave_end, crate::proofs::TurnLaws::leave_full))]
pub fn serve(u: InRange, bytes: &[u8], room: &mut [u8]) -> Taken
    ensures taken { result ≡ taken_of (run_of machine u.unit (length room.old) bytes.now) }
    ensures room { room.new ≡ room_of (run_of machine u.unit (length room.old) bytes.now) room.old }
{
    let m = room.len();
    let mut v = u.unit;
    let mut kept = v.kept;
    let mut pos = v.pos;
    let mut taken: usize = 0;
    let mut at: usize = 0;
    for &b in bytes {
        if m - at < reply::ROOM {
            break;
        }
        taken += 1;
        let f = cut::advance(pos, b);
        match f.act {
            Act::Keeps(k) => {
                pos = f.pos;
                kept[k] = b;
            }
            Act::Drops => {
                pos = f.pos;
                if pos.long {
                    kept = [0u8; MOST];
                }
            }
            Act::Ends => {
                v = Unit { kept, pos, ..v };
                let a = commands::obey(InRange { unit: v }, kept, pos);
                kept = [0u8; MOST];
                pos = cut::fresh_pos();
                at += reply::put(&mut room[at..], a.reply);
                v = changes::made(v, a.change);
            }
        }
    }
    Taken {
        next: Unit { kept, pos, ..v },
        taken,
        written: at,
    }
}
