// Settings: GCA, GDE, NOV, RSN, ENU, DPT, ZSE, ZTR with their resets; CWT, COF, TAS, TAV without.
ghost use Rattle.std.specs.Prelude.{◌≡◌};
ghost use Rattle.plans.specs.Plans.{setting_plan, cwt_plan, cof_plan, tas_plan, tav_plan};
ghost use Rattle.plans.specs.Obey.{judge};
ghost use Rattle.plans.specs.ObeyLaws.{answer_of, judged_as};

use line::shape::Param;
use plans::judge::{marked, need, number, value};
use state::{Change, Free, Reason, Setting, Unit, changes, table};
use weight::{Digits, sets};

#[tactic(auto, unfolding(plans::specs::Obey::judge))]
pub fn on_setting(u: Unit, k: Setting, p: Param) -> Result<Change, Reason>
    ensures { judged_as u result ≡ answer_of (judge u (setting_plan u k p)) }
{
    let x = value(p)?;
    marked(u, table::takes(k, x))?;
    let q = table::with_setting(k, u.used.sealed, x.n);
    Ok(Change::To(changes::alter(u, q, u.point)))
}

#[tactic(auto, unfolding(plans::specs::Obey::judge))]
pub fn on_cwt(u: Unit, p: Param) -> Result<Change, Reason>
    ensures { judged_as u result ≡ answer_of (judge u (cwt_plan u p)) }
{
    let x = value(p)?;
    marked(u, sets::is_load(x))?;
    let q = table::with_cwt(u.used.sealed, x.n);
    Ok(Change::To(changes::reseal(u, q)))
}

// COF and TAS differ in a field and its set: two plans (`cof_plan`, `tas_plan`), and no parameter would name a field.
#[tactic(auto, unfolding(plans::specs::Obey::judge))]
pub fn on_cof(u: Unit, p: Param) -> Result<Change, Reason>
    ensures { judged_as u result ≡ answer_of (judge u (cof_plan u p)) }
{
    let x = value(p)?;
    need(table::is_format(x), Reason::Value)?;
    let f = Free {
        cof: x.n,
        ..u.used.free
    };
    Ok(Change::To(changes::set_free(u, f)))
}

#[tactic(auto, unfolding(plans::specs::Obey::judge))]
pub fn on_tas(u: Unit, p: Param) -> Result<Change, Reason>
    ensures { judged_as u result ≡ answer_of (judge u (tas_plan u p)) }
{
    let x = value(p)?;
    need(table::is_switch(x), Reason::Value)?;
    let f = Free {
        tas: x.n,
        ..u.used.free
    };
    Ok(Change::To(changes::set_free(u, f)))
}

#[tactic(auto, unfolding(plans::specs::Obey::judge))]
pub fn on_tav(u: Unit, p: Param) -> Result<Change, Reason>
    ensures { judged_as u result ≡ answer_of (judge u (tav_plan u p)) }
{
    let tare = Digits(number(p)?.0);
    need(
        sets::tare_in(u.used.lft, u.used.sealed.scale.nov, tare),
        Reason::Value,
    )?;
    let f = Free {
        tare,
        ..u.used.free
    };
    Ok(Change::To(changes::set_free(u, f)))
}
