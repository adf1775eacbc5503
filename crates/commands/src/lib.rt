// A line, obeyed: its shape read, its needs looked at in document 01's order, then done or refused.
#![tactic(auto)]

ghost use Rattle.std.specs.Prelude.{◌≡◌};
ghost use Rattle.line.specs.Shape.{shape_of};
ghost use Rattle.plans.specs.Plans.{command_plan};
ghost use Rattle.plans.specs.ObeyLaws.{answer_of, judged_as, obeyed_as};
ghost use Rattle.plans.specs.Obey.{judge, served_plan, shape_plan, obey_of};

use changing::{set, trade, word};
use line::cut::{MOST, Pos};
use line::names::Name;
use line::shape::{Command, Fault, Param};
use plans::Obeyed;
use plans::judge::{done_or_refused, refused};
use state::in_range::InRange;
use state::{Change, Reason, Setting, changes};

// A command that is no query. `s` is the line, where texts lie.
#[tactic(auto, unfolding(plans::specs::Obey::judge))]
fn command(u: InRange, s: &[u8], n: Name, p: Param) -> Result<Change, Reason>
    ensures { judged_as u.unit result ≡ answer_of (judge u.unit (command_plan u.unit s.now n p)) }
{
    match n {
        Name::Gca => set::on_setting(u.unit, Setting::Gca, p),
        Name::Gde => set::on_setting(u.unit, Setting::Gde, p),
        Name::Cwt => set::on_cwt(u.unit, p),
        Name::Ldw => measuring::on_ldw(u.unit, p),
        Name::Lwt => measuring::on_lwt(u, p),
        Name::Nov => set::on_setting(u.unit, Setting::Nov, p),
        Name::Rsn => set::on_setting(u.unit, Setting::Rsn, p),
        Name::Enu => set::on_setting(u.unit, Setting::Enu, p),
        Name::Dpt => set::on_setting(u.unit, Setting::Dpt, p),
        Name::Zse => set::on_setting(u.unit, Setting::Zse, p),
        Name::Ztr => set::on_setting(u.unit, Setting::Ztr, p),
        Name::Lft => trade::on_lft(u.unit, p),
        Name::Cof => set::on_cof(u.unit, p),
        Name::Tas => set::on_tas(u.unit, p),
        Name::Tav => set::on_tav(u.unit, p),
        Name::Tar => measuring::on_tar(u, p),
        Name::Cdl => measuring::on_cdl(u, p),
        Name::Res => trade::on_res(u.unit, p),
        Name::Tdd => trade::on_tdd(u.unit, p),
        Name::Spw => word::on_spw(u.unit, s, p),
        Name::Dpw => word::on_dpw(u.unit, s, p),
        Name::Msv | Name::Tcr | Name::Esr => Err(Reason::Form),
    }
}

fn serve(u: InRange, s: &[u8], n: Name, p: Param) -> Obeyed
    ensures { obeyed_as u.unit result ≡ answer_of (judge u.unit (served_plan u.unit s.now n p)) }
{
    let Param::Query = p else {
        return done_or_refused(u.unit, command(u, s, n, p));
    };
    match asking::ask(u, n) {
        Ok(a) => Obeyed {
            change: Change::To(changes::set_reason(u.unit, a.reason)),
            reply: a.reply,
        },
        Err(why) => refused(u.unit, why),
    }
}

// A line that kept bytes and is not too long.
#[tactic(auto, unfolding(plans::specs::Obey::judge))]
fn read(u: InRange, s: &[u8]) -> Obeyed
    ensures { obeyed_as u.unit result ≡ answer_of (judge u.unit (shape_plan u.unit s.now (shape_of s.now))) }
{
    match line::shape::read_line(s) {
        Ok(Command { name, param }) => serve(u, s, name, param),
        Err(Fault::Malformed) => refused(u.unit, Reason::Form),
        Err(Fault::Unknown) => refused(u.unit, Reason::Unknown),
    }
}

#[tactic(auto, using(crate::proofs::Part::part_take), unfolding(plans::specs::Obey::judge, plans::specs::Obey::obey_of))]
pub fn obey(u: InRange, kept: [u8; MOST], p: Pos) -> Obeyed
    ensures { obeyed_as u.unit result ≡ answer_of (obey_of u.unit kept p) }
{
    if p.len == 0 {
        return Obeyed {
            change: Change::To(changes::unchanged(u.unit)),
            reply: reply::empty(),
        };
    }
    if p.long {
        return refused(u.unit, Reason::Long);
    }
    read(u, &kept[..p.len.min(MOST)])
}
