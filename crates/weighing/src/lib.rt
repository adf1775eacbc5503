// What a unit reads, and how samples move it. No weight is stored: each is made when it is asked for.
#![tactic(auto)]

ghost use Rattle.std.specs.Prelude.{◌≡◌};
ghost use Rattle.weighing.specs.Reading.{seen_at, seen_of, cell_of, steady_of, sampled_of, v_now, g_now, gross_now, net_now, place_at, gross_place, place_now, value_now, shown_now, read_at, reading_of};
ghost use Rattle.weighing.specs.Samples.{first_now, tracked_now, zeros_now, sample_of};

use state::in_range::InRange;
use state::{Seen, Unit, Zeros, changes};
use weight::{Cell, Digits, Limits, Place, Shown, Tenths, display, zero};

// What the display has: nothing since the restart, over, under, or the weight with what is shown of it; each with its steadiness. A host tells
// four cases apart, and by one match.
#[derive(Clone, Copy)]
pub enum Reading {
    Nothing,
    Over(bool),
    Under(bool),
    Weight(Digits, Digits, Digits, bool),
}

// ---- the held sample

// As `shown_at` (weight), for what is held.
fn seen_at(p: Place, x: Cell, still: bool) -> Seen
    ensures { result ≡ seen_at p x still }
{
    match p {
        Place::Within => Seen::Number(x, still),
        Place::Over => Seen::Over,
        Place::Under => Seen::Under,
    }
}

fn seen_of(x: i32, still: bool) -> Seen
    ensures { result ≡ seen_of x still }
{
    let c = Cell::from(x);
    seen_at(display::cell_place(c), c, still)
}

pub fn cell_of(s: Seen) -> Cell
    ensures { result ≡ cell_of s }
{
    match s {
        Seen::Nothing | Seen::Over | Seen::Under => Cell(0),
        Seen::Number(x, _) => x,
    }
}

pub fn is_steady(s: Seen) -> bool
    ensures { result ≡ steady_of s }
{
    match s {
        Seen::Nothing | Seen::Over | Seen::Under => false,
        Seen::Number(_, still) => still,
    }
}

pub fn is_sampled(s: Seen) -> bool
    ensures { result ≡ sampled_of s }
{
    match s {
        Seen::Nothing => false,
        Seen::Over | Seen::Under | Seen::Number(_, _) => true,
    }
}

// ---- the weight of the held sample

#[tactic(auto, unfolding(crate::specs::Reading::v_now))]
pub fn v_now(u: InRange) -> Tenths
    ensures { result ≡ v_now u.unit }
{
    weight::in_tenths(u.unit.used.sealed.scale, cell_of(u.unit.seen))
}

fn g_now(u: InRange) -> Tenths
    ensures { result ≡ g_now u.unit }
{
    weight::above_zeros(v_now(u), u.unit.zeros.z0, u.unit.zeros.z1)
}

#[tactic(auto, unfolding(crate::specs::Reading::gross_now))]
pub fn gross_now(u: InRange) -> Digits
    ensures { result ≡ gross_now u.unit }
{
    weight::gross_of(u.unit.used.sealed.scale.rsn, g_now(u))
}

#[tactic(auto, using(crate::specs::RangeLaws::gross_now_lem, crate::specs::RangeLaws::tare_now))]
pub fn net_now(u: InRange) -> Digits
    ensures { result ≡ net_now u.unit }
{
    weight::net_of(gross_now(u), u.unit.used.free.tare)
}

fn place_at(s: Seen, p: Place) -> Place
    ensures { result ≡ place_at s p }
{
    match s {
        Seen::Nothing | Seen::Number(_, _) => p,
        Seen::Over => Place::Over,
        Seen::Under => Place::Under,
    }
}

// LFT, NOV and RSN as they are in use.
pub fn limits(u: InRange) -> Limits
    ensures lft { result.lft ≡ u.unit.used.lft }
    ensures nov { result.nov ≡ u.unit.used.sealed.scale.nov }
    ensures rsn { result.rsn ≡ u.unit.used.sealed.scale.rsn }
{
    let scale = u.unit.used.sealed.scale;
    Limits {
        lft: u.unit.used.lft,
        nov: scale.nov,
        rsn: scale.rsn,
    }
}

#[tactic(auto, using(crate::specs::RangeLaws::gross_now_lem))]
pub fn gross_place(u: InRange) -> Place
    ensures { result ≡ gross_place u.unit }
{
    limits(u).place_of(gross_now(u))
}

pub fn place_now(u: InRange) -> Place
    ensures { result ≡ place_now u.unit }
{
    place_at(u.unit.seen, gross_place(u))
}

pub fn value_now(u: InRange) -> Digits
    ensures { result ≡ value_now u.unit }
{
    if u.unit.used.free.tas == 0 {
        net_now(u)
    } else {
        gross_now(u)
    }
}

pub fn shown_now(u: InRange) -> Shown
    ensures { result ≡ shown_now u.unit }
{
    display::shown_at(place_now(u), value_now(u))
}

// As `shown_at` (weight), for what a host reads.
fn read_at(p: Place, g: Digits, n: Digits, v: Digits, s: bool) -> Reading
    ensures { result ≡ read_at p g n v s }
{
    match p {
        Place::Within => Reading::Weight(g, n, v, s),
        Place::Over => Reading::Over(s),
        Place::Under => Reading::Under(s),
    }
}

pub fn reading_now(u: InRange) -> Reading
    ensures { result ≡ reading_of u.unit }
{
    if !is_sampled(u.unit.seen) {
        return Reading::Nothing;
    }
    read_at(
        place_now(u),
        gross_now(u),
        net_now(u),
        value_now(u),
        is_steady(u.unit.seen),
    )
}

// ---- samples

#[tactic(auto, using(crate::specs::RangeLaws::v_now_lem), unfolding(crate::specs::Samples::first_now))]
fn first_now(u: InRange) -> Tenths
    ensures { result ≡ first_now u.unit }
{
    zero::first_zero(u.unit.used.sealed.zse, limits(u).nov, v_now(u))
}

#[tactic(auto, using(crate::specs::RangeLaws::g_now_lem, crate::specs::RangeLaws::tare_now, crate::specs::RangeLaws::zeros_now_lem), unfolding(crate::specs::Samples::tracked_now))]
fn tracked_now(u: InRange) -> Tenths
    ensures { result ≡ tracked_now u.unit }
{
    let free = u.unit.used.free;
    let s = zero::tracked_value(free.tas, g_now(u), free.tare);
    limits(u).tracked_zero(u.unit.zeros.z1, s)
}

fn zeros_now(u: InRange) -> Zeros
    ensures { result ≡ zeros_now u.unit }
{
    let steady = is_steady(u.unit.seen);
    let z = u.unit.zeros;
    Zeros {
        z0: if steady & z.waits { first_now(u) } else { z.z0 },
        z1: if (steady & !z.waits) & (u.unit.used.sealed.ztr == 1) {
            tracked_now(u)
        } else {
            z.z1
        },
        waits: !steady & z.waits,
    }
}

// See, first zeroing, tracking. The sample and its flag come as two, as `wire::sample` and `lent::on_sample` take them.
pub fn take_sample(u: InRange, x: i32, still: bool) -> Unit
    ensures { result ≡ sample_of u.unit x still }
{
    let v = InRange {
        unit: changes::see(u.unit, seen_of(x, still), u.unit.zeros),
    };
    Unit {
        zeros: zeros_now(v),
        ..v.unit
    }
}
