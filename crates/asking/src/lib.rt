// Queries: what each gives.
#![tactic(auto)]

ghost use Rattle.std.specs.Prelude.{◌≡◌, ◌≤◌};
ghost use Rattle.reply.specs.Reply.{reply_of};
ghost use Rattle.plans.specs.Queries.{bit, status_of, status_now, msv_text, msv_plan, query_plan};
ghost use Rattle.plans.specs.Obey.{judge};
ghost use Rattle.plans.specs.ObeyLaws.{answer_of};
ghost use Rattle.asking.specs.Said.{said_by, left_by};

use line::names::Name;
use reply::Reply;
use state::in_range::InRange;
use state::{Reason, Unit};
use weight::{Place, display};

// What a query hands on where it is not refused: the reason that stands after it, all that it can change, and its reply. The reason is the unit's
// number, whatever that is.
#[derive(Clone, Copy)]
pub struct Noted {
    pub reason: u64,
    pub reply: Reply,
}

// ---- MSV?

fn bit_of(b: bool, n: u64) -> u64
    ensures said { result ≡ bit b n }
    ensures small { result ≤ n }
{
    if b { n } else { 0 }
}

#[tactic(auto, unfolding(plans::specs::Queries::status_of))]
fn status_of(nets: bool, still: bool, p: Place, waits: bool, sealed: bool) -> u64
    ensures { result ≡ status_of nets still p waits sealed }
{
    bit_of(nets, 1)
        + bit_of(still, 2)
        + bit_of(p == Place::Over, 4)
        + bit_of(p == Place::Under, 8)
        + bit_of(waits, 16)
        + bit_of(sealed, 32)
}

fn status_now(u: InRange) -> u64
    ensures { result ≡ status_now u.unit }
{
    status_of(
        u.unit.used.free.tas == 0,
        weighing::is_steady(u.unit.seen),
        weighing::place_now(u),
        u.unit.zeros.waits,
        0 < u.unit.used.lft,
    )
}

#[tactic(auto, using(crate::specs::Said::msv_status), unfolding(plans::specs::Queries::msv_text, reply::specs::Reply::word4_text, reply::specs::Reply::word2_text))]
fn msv_reply(u: InRange) -> Reply
    ensures { result ≡ reply_of (msv_text u.unit) }
{
    let s = weighing::shown_now(u);
    match u.unit.used.free.cof {
        0 => reply::word::<4>(display::in_four(s).0),
        2 => reply::word::<2>(display::in_two(s).0),
        3 => reply::signed(display::in_decimal(s).0),
        _ => reply::with_status(display::in_decimal(s).0, 31, status_now(u)),
    }
}

// ---- all queries

// What leaves the reason as it is.
fn said(u: Unit, reply: Reply) -> Result<Noted, Reason>
    ensures { result ≡ left_by u reply }
{
    Ok(Noted {
        reason: u.reason,
        reply,
    })
}

#[tactic(auto, unfolding(plans::specs::Obey::judge))]
fn on_msv(u: InRange) -> Result<Noted, Reason>
    ensures { said_by u.unit result ≡ answer_of (judge u.unit (msv_plan u.unit)) }
{
    if !weighing::is_sampled(u.unit.seen) {
        return Err(Reason::Unsteady);
    }
    said(u.unit, msv_reply(u))
}

#[tactic(auto, unfolding(plans::specs::Obey::judge, reply::specs::Reply::blank_text, reply::specs::Reply::signed_text))]
pub fn ask(u: InRange, n: Name) -> Result<Noted, Reason>
    ensures { said_by u.unit result ≡ answer_of (judge u.unit (query_plan u.unit n)) }
{
    let sealed = u.unit.used.sealed;
    let free = u.unit.used.free;
    match n {
        Name::Gca => said(u.unit, reply::blank::<6>(sealed.scale.gca)),
        Name::Gde => said(u.unit, reply::blank::<6>(sealed.scale.gde)),
        Name::Cwt => said(u.unit, reply::pair(sealed.cwt, sealed.scale.curve.c)),
        Name::Ldw => said(u.unit, reply::signed(sealed.scale.curve.l.0)),
        Name::Lwt => said(u.unit, reply::signed(sealed.scale.curve.w.0)),
        Name::Nov => said(u.unit, reply::blank::<7>(sealed.scale.nov)),
        Name::Rsn => said(u.unit, reply::digits::<2>(sealed.scale.rsn)),
        Name::Enu => said(u.unit, reply::digits::<1>(sealed.enu)),
        Name::Dpt => said(u.unit, reply::digits::<1>(sealed.dpt)),
        Name::Zse => said(u.unit, reply::digits::<1>(sealed.zse)),
        Name::Ztr => said(u.unit, reply::digits::<1>(sealed.ztr)),
        Name::Lft => said(u.unit, reply::digits::<1>(u.unit.used.lft)),
        Name::Cof => said(u.unit, reply::digits::<2>(free.cof)),
        Name::Tas => said(u.unit, reply::digits::<1>(free.tas)),
        Name::Tav => said(u.unit, reply::signed(free.tare.0)),
        Name::Tar | Name::Cdl | Name::Res | Name::Tdd | Name::Spw | Name::Dpw => Err(Reason::Form),
        Name::Msv => on_msv(u),
        Name::Tcr => said(u.unit, reply::digits::<7>(u.unit.counter)),
        Name::Esr => Ok(Noted {
            reason: 0,
            reply: reply::digits::<2>(u.unit.reason),
        }),
    }
}
