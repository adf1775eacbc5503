// Saving and trade mode: LFT, TDD, RES.
ghost use Rattle.std.specs.Prelude.{◌≡◌};
ghost use Rattle.plans.specs.Plans.{lft_plan, tdd_plan, res_plan};
ghost use Rattle.plans.specs.Obey.{judge};
ghost use Rattle.plans.specs.ObeyLaws.{answer_of, judged_as};

use line::shape::Param;
use plans::judge::{need, nothing, value};
use state::{Change, Reason, Unit, changes, table};

#[tactic(auto, unfolding(plans::specs::Obey::judge))]
pub fn on_lft(u: Unit, p: Param) -> Result<Change, Reason>
    ensures { judged_as u result ≡ answer_of (judge u (lft_plan u p)) }
{
    let x = value(p)?;
    need(u.unlocked, Reason::Locked)?;
    need(table::is_mode(x), Reason::Value)?;
    let same = x.n == u.used.lft;
    need(
        (same | (x.n == 0)) | (u.counter < 9_999_999),
        Reason::Stands,
    )?;
    if same {
        return Ok(Change::To(changes::unchanged(u)));
    }
    Ok(Change::To(changes::trade(u, x.n)))
}

// TDD's value comes before its lock and seal, which bar 0 alone. It is looked at once, where the line brought it, and becomes no enum.
#[tactic(auto, unfolding(plans::specs::Obey::judge))]
pub fn on_tdd(u: Unit, p: Param) -> Result<Change, Reason>
    ensures { judged_as u result ≡ answer_of (judge u (tdd_plan u p)) }
{
    let x = value(p)?;
    need(x.is_between(0, 2), Reason::Value)?;
    let others = 0 < x.n;
    need(others | u.unlocked, Reason::Locked)?;
    need(others | (u.used.lft == 0), Reason::Barred)?;
    match x.n {
        0 => Ok(Change::To(changes::recall(u, table::factory()))),
        1 => Ok(Change::To(changes::save(u))),
        _ => Ok(Change::To(changes::recall(u, u.saved))),
    }
}

#[tactic(auto, unfolding(plans::specs::Obey::judge))]
pub fn on_res(u: Unit, p: Param) -> Result<Change, Reason>
    ensures { judged_as u result ≡ answer_of (judge u (res_plan u p)) }
{
    nothing(p)?;
    Ok(Change::Restart)
}
