// The ranges of a unit's fields, tested.
ghost use Rattle.std.specs.Prelude.{◌≡◌, true, false, IfSome, IfNone};
ghost use Rattle.state.specs.Ranged.{sealed_in, free_in, settings_in, zeros_in, point_in, seen_in, lock_in, ranged_of};

use crate::in_range::InRange;
use crate::{Free, Password, Point, Sealed, Seen, Settings, Unit, Zeros, table};
use weight::sets;
use whole::Whole;

#[tactic(auto, unfolding(crate::specs::Ranged::sealed_in))]
fn sealed_in(q: Sealed) -> bool
    ensures { result ≡ sealed_in q }
{
    sets::scale_in(q.scale)
        & sets::is_load(Whole::from(q.cwt))
        & table::is_code(Whole::from(q.enu))
        & table::is_code(Whole::from(q.dpt))
        & table::is_code(Whole::from(q.zse))
        & table::is_switch(Whole::from(q.ztr))
}

#[tactic(auto, unfolding(crate::specs::Ranged::free_in))]
fn free_in(f: Free) -> bool
    ensures { result ≡ free_in f }
{
    table::is_format(Whole::from(f.cof))
        & table::is_switch(Whole::from(f.tas))
        & (f.tare.0.unsigned_abs() <= 100_000)
}

#[tactic(auto, unfolding(crate::specs::Ranged::settings_in))]
fn settings_in(s: Settings) -> bool
    ensures { result ≡ settings_in s }
{
    sealed_in(s.sealed) & table::is_mode(Whole::from(s.lft)) & free_in(s.free)
}

#[tactic(auto, unfolding(crate::specs::Ranged::zeros_in))]
fn zeros_in(z: Zeros) -> bool
    ensures { result ≡ zeros_in z }
{
    (z.z0.0.unsigned_abs() <= 200_000) & (z.z1.0.unsigned_abs() <= 200_000)
}

#[tactic(auto, unfolding(crate::specs::Ranged::point_in))]
fn point_in(p: Point) -> bool
    ensures { result ≡ point_in p }
{
    sets::is_cell(p.at)
}

#[tactic(auto, unfolding(crate::specs::Ranged::seen_in))]
fn seen_in(s: Seen) -> bool
    ensures { result ≡ seen_in s }
{
    match s {
        Seen::Nothing | Seen::Over | Seen::Under => true,
        Seen::Number(x, _) => sets::is_cell(x),
    }
}

#[tactic(auto, unfolding(crate::specs::Ranged::lock_in))]
fn lock_in(counter: u64, reason: u64, w: Password) -> bool
    ensures { result ≡ lock_in counter reason w }
{
    (counter <= 9_999_999) & (reason <= 11) & (w.len <= 7)
}

// The settings by branches: with one sum of tests all fields would be read before the first is looked at.
#[tactic(auto, unfolding(crate::specs::Ranged::ranged_of))]
pub fn is_ranged(u: Unit) -> bool
    ensures { result ≡ ranged_of u }
{
    if !settings_in(u.used) {
        return false;
    }
    if !settings_in(u.saved) {
        return false;
    }
    zeros_in(u.zeros)
        & point_in(u.point)
        & seen_in(u.seen)
        & lock_in(u.counter, u.reason, u.password)
}

impl InRange {
    // The unit, if all its values are in range; who is handed one need not look again.
    pub fn new(unit: Unit) -> Option<InRange>
        ensures some { IfSome result (λ (r : InRange). (r.unit ≡ unit) × (ranged_of unit ≡ true)) }
        ensures none { IfNone result (ranged_of unit ≡ false) }
    {
        if is_ranged(unit) {
            Some(InRange { unit })
        } else {
            None
        }
    }
}
