// What reads the sample: LDW, LWT, TAR, CDL.
#![tactic(auto)]

ghost use Rattle.std.specs.Prelude.{◌≡◌, None, Some, IfOk, IfErr};
ghost use Rattle.plans.specs.Needs.{first_failed};
ghost use Rattle.plans.specs.Plans.{point_needs, point_given, new_curve, ldw_plan, lwt_plan, tar_plan, cdl_plan};
ghost use Rattle.plans.specs.Obey.{judge};
ghost use Rattle.plans.specs.ObeyLaws.{answer_of, judged_as};

use line::shape::Param;
use plans::judge::{marked, need, nothing};
use state::in_range::InRange;
use state::{Change, Free, Reason, Sealed, Unit, Zeros, changes};
use weight::{Cell, Curve, Place, Scale, sets, zero};

// ---- LDW and LWT

// The number given, or the reading's, which must be steady.
fn point_given(u: Unit, p: Param) -> Result<Cell, Reason>
    ensures given { IfOk result (λ x. (first_failed (point_needs u p) ≡ None) × (x ≡ point_given u p)) }
    ensures lacking { IfErr result (λ why. first_failed (point_needs u p) ≡ Some why) }
{
    match p {
        Param::Number(n) => {
            let x = Cell(n.0);
            marked(u, sets::is_cell(x))?;
            Ok(x)
        }
        Param::Nothing => {
            marked(u, true)?;
            need(weighing::is_steady(u.seen), Reason::Unsteady)?;
            Ok(weighing::cell_of(u.seen))
        }
        Param::Query | Param::Text { .. } => Err(Reason::Form),
    }
}

#[tactic(auto, unfolding(plans::specs::Obey::judge))]
pub fn on_ldw(u: Unit, p: Param) -> Result<Change, Reason>
    ensures { judged_as u result ≡ answer_of (judge u (ldw_plan u p)) }
{
    let x = point_given(u, p)?;
    Ok(Change::To(changes::set_point(u, changes::point_at(x))))
}

fn with_curve(q: Sealed, curve: Curve, gca: u64) -> Sealed
    ensures { result ≡ new_curve q curve gca }
{
    Sealed {
        scale: Scale {
            curve,
            gca,
            ..q.scale
        },
        ..q
    }
}

// From a reading, GCA is made equal to GDE too.
#[tactic(auto, unfolding(plans::specs::Obey::judge))]
pub fn on_lwt(u: InRange, p: Param) -> Result<Change, Reason>
    ensures { judged_as u.unit result ≡ answer_of (judge u.unit (lwt_plan u.unit p)) }
{
    let u = u.unit;
    let w = point_given(u, p)?;
    need(u.point.held, Reason::Pointless)?;
    let curve = Curve {
        l: u.point.at,
        w,
        c: u.used.sealed.cwt,
    };
    need(sets::span_ok(curve), Reason::Value)?;
    let gca = match p {
        Param::Nothing => u.used.sealed.scale.gde,
        _ => u.used.sealed.scale.gca,
    };
    let q = with_curve(u.used.sealed, curve, gca);
    Ok(Change::To(changes::alter(u, q, changes::no_point())))
}

// ---- TAR and CDL

#[tactic(auto, unfolding(plans::specs::Obey::judge))]
pub fn on_tar(u: InRange, p: Param) -> Result<Change, Reason>
    ensures { judged_as u.unit result ≡ answer_of (judge u.unit (tar_plan u.unit p)) }
{
    nothing(p)?;
    need(weighing::is_steady(u.unit.seen), Reason::Unsteady)?;
    need(weighing::gross_place(u) == Place::Within, Reason::Range)?;
    let g = weighing::gross_now(u);
    let tares = sets::tare_in(u.unit.used.lft, u.unit.used.sealed.scale.nov, g);
    need(tares, Reason::Range)?;
    let f = Free {
        tas: 0,
        tare: g,
        ..u.unit.used.free
    };
    Ok(Change::To(changes::set_free(u.unit, f)))
}

#[tactic(auto, unfolding(plans::specs::Obey::judge))]
pub fn on_cdl(u: InRange, p: Param) -> Result<Change, Reason>
    ensures { judged_as u.unit result ≡ answer_of (judge u.unit (cdl_plan u.unit p)) }
{
    nothing(p)?;
    need(weighing::is_steady(u.unit.seen), Reason::Unsteady)?;
    let z1 = weight::less_by(weighing::v_now(u), u.unit.zeros.z0);
    let share = zero::later_share(u.unit.used.lft);
    let near = zero::within_share(share, weighing::limits(u).nov, z1);
    need(near, Reason::Range)?;
    let z = Zeros { z1, ..u.unit.zeros };
    Ok(Change::To(changes::set_zeros(u.unit, z)))
}
