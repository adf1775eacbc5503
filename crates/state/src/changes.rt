// The changes, with nothing decided: what a done command or a refusal changes, and the unit that it or an event leaves.
ghost use Rattle.std.specs.Prelude.{◌≡◌};
ghost use Rattle.state.specs.Parts.{unchanged_as, reset_as, parts_of, changed_by};
ghost use Rattle.state.specs.Changes.{no_zeros, no_point, point_at, grossed, sighted, worded, gated, altered_of, resealed_of, freed_of, zeroed_of, pointed_of, saved_of, recalled_of, next_count, traded_of, started_of, restarted_of, new_unit, refused_unit};

use crate::{
    Change, Free, Parts, Password, Point, Reason, Sealed, Seen, Settings, Unit, Zeros, table,
};
use line::cut;
use weight::{Cell, Digits, Tenths};

pub fn no_zeros(waits: bool) -> Zeros
    ensures { result ≡ no_zeros waits }
{
    Zeros {
        z0: Tenths(0),
        z1: Tenths(0),
        waits,
    }
}

pub fn no_point() -> Point
    ensures { result ≡ no_point }
{
    Point {
        held: false,
        at: Cell(0),
    }
}

pub fn point_at(x: Cell) -> Point
    ensures { result ≡ point_at x }
{
    Point { held: true, at: x }
}

fn gross_shown(f: Free) -> Free
    ensures { result ≡ grossed f }
{
    Free {
        tas: 1,
        tare: Digits(0),
        ..f
    }
}

// ---- what commands change

// The parts as they stand: what every change begins from.
pub fn unchanged(u: Unit) -> Parts
    ensures { result ≡ unchanged_as u }
{
    Parts {
        used: u.used,
        zeros: u.zeros,
        point: u.point,
        password: u.password,
        counter: u.counter,
        reason: u.reason,
        unlocked: u.unlocked,
        saves: false,
    }
}

// Other settings in use, and no zeros.
fn reset(u: Unit, used: Settings, point: Point) -> Parts
    ensures { result ≡ reset_as u used point }
{
    Parts {
        used,
        zeros: no_zeros(false),
        point,
        ..unchanged(u)
    }
}

// Each of these sets its parts and has a definition of its own; no parameter would name a field.
pub fn alter(u: Unit, q: Sealed, p: Point) -> Parts
    ensures { parts_of u result ≡ altered_of u q p }
{
    let used = Settings {
        sealed: q,
        lft: u.used.lft,
        free: gross_shown(u.used.free),
    };
    reset(u, used, p)
}

pub fn reseal(u: Unit, q: Sealed) -> Parts
    ensures { parts_of u result ≡ resealed_of u q }
{
    Parts {
        used: Settings {
            sealed: q,
            ..u.used
        },
        ..unchanged(u)
    }
}

pub fn set_free(u: Unit, f: Free) -> Parts
    ensures { parts_of u result ≡ freed_of u f }
{
    Parts {
        used: Settings { free: f, ..u.used },
        ..unchanged(u)
    }
}

pub fn set_zeros(u: Unit, z: Zeros) -> Parts
    ensures { parts_of u result ≡ zeroed_of u z }
{
    Parts {
        zeros: z,
        ..unchanged(u)
    }
}

pub fn set_point(u: Unit, p: Point) -> Parts
    ensures { parts_of u result ≡ pointed_of u p }
{
    Parts {
        point: p,
        ..unchanged(u)
    }
}

pub fn save(u: Unit) -> Parts
    ensures { parts_of u result ≡ saved_of u }
{
    Parts {
        saves: true,
        ..unchanged(u)
    }
}

pub fn recall(u: Unit, s: Settings) -> Parts
    ensures { parts_of u result ≡ recalled_of u s }
{
    reset(u, s, no_point())
}

fn next_count(c: u64) -> u64
    ensures { result ≡ next_count c }
{
    if c < 9_999_999 { c + 1 } else { 9_999_999 }
}

pub fn trade(u: Unit, n: u64) -> Parts
    ensures { parts_of u result ≡ traded_of u n }
{
    let used = Settings {
        sealed: u.used.sealed,
        lft: n,
        free: gross_shown(u.used.free),
    };
    let mut p = reset(u, used, no_point());
    p.counter = next_count(u.counter);
    p.saves = true;
    p
}

pub fn set_lock(u: Unit, lock: bool) -> Parts
    ensures { parts_of u result ≡ gated u lock u.reason }
{
    Parts {
        unlocked: lock,
        ..unchanged(u)
    }
}

pub fn set_reason(u: Unit, n: u64) -> Parts
    ensures { parts_of u result ≡ gated u u.unlocked n }
{
    Parts {
        reason: n,
        ..unchanged(u)
    }
}

pub fn set_password(u: Unit, w: Password) -> Parts
    ensures { parts_of u result ≡ worded u w }
{
    Parts {
        password: w,
        ..unchanged(u)
    }
}

pub fn start_again(u: Unit) -> Change
    ensures { changed_by u result ≡ restarted_of u }
{
    Change::Restart
}

pub fn refuse(u: Unit, why: Reason) -> Parts
    ensures { parts_of u result ≡ refused_unit u why }
{
    Parts {
        reason: u64::from(why),
        unlocked: (why != Reason::Differs) && u.unlocked,
        ..unchanged(u)
    }
}

// ---- units

pub fn see(u: Unit, s: Seen, z: Zeros) -> Unit
    ensures { result ≡ sighted u s z }
{
    Unit {
        seen: s,
        zeros: z,
        ..u
    }
}

// A unit that has just started with these settings saved.
fn started(saved: Settings, password: Password, counter: u64, waits: bool) -> Unit
    ensures { result ≡ started_of saved password counter waits }
{
    Unit {
        kept: [0u8; cut::MOST],
        pos: cut::fresh_pos(),
        used: saved,
        saved,
        zeros: no_zeros(waits),
        seen: Seen::Nothing,
        point: no_point(),
        unlocked: false,
        password,
        counter,
        reason: 0,
    }
}

pub fn restart(u: Unit) -> Unit
    ensures { result ≡ restarted_of u }
{
    started(u.saved, u.password, u.counter, 0 < u.saved.sealed.zse)
}

pub fn new_unit() -> Unit
    ensures { result ≡ new_unit }
{
    let w = Password {
        bytes: *b"AED\0\0\0\0",
        len: 3,
    };
    started(table::factory(), w, 0, false)
}

// The unit that a change leaves.
pub fn made(u: Unit, c: Change) -> Unit
    ensures { result ≡ changed_by u c }
{
    let Change::To(p) = c else {
        return restart(u);
    };
    Unit {
        used: p.used,
        saved: if p.saves { p.used } else { u.saved },
        zeros: p.zeros,
        point: p.point,
        unlocked: p.unlocked,
        password: p.password,
        counter: p.counter,
        reason: p.reason,
        ..u
    }
}
