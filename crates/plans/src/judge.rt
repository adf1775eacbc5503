// Needs, looked at in their order: the first that fails refuses the command by its reason. And a command that was judged: done or refused.
ghost use Rattle.std.specs.Prelude.{◌≡◌, true, false, eqb, None, Some, OnOk, IfErr};
ghost use Rattle.cases.specs.Pick.{pick};
ghost use Rattle.reply.specs.Reply.{reply_of};
ghost use Rattle.line.specs.Param.{is_nothing};
ghost use Rattle.state.specs.declared.Reason.TheVariants.{Form};
ghost use Rattle.plans.specs.Obey.{refused_of};
ghost use Rattle.plans.specs.ObeyLaws.{answer_of, spoken_text, told_as, judged_as, obeyed_as, failed_of, need_of, gate_of, size_of, number_typed, value_typed};

use crate::{Judged, Obeyed};
use line::shape::{Number, Param};
use reply::Reply;
use state::{Change, Reason, Unit, changes, reasons};
use whole::Whole;

pub fn need(holds: bool, why: Reason) -> Result<(), Reason>
    ensures ok { OnOk result (holds ≡ true) }
    ensures err { IfErr result (λ r. (holds ≡ false) × (r ≡ why)) }
{
    if holds { Ok(()) } else { Err(why) }
}

// One need before others: the reason where it does not hold, else what those say.
pub fn rung(holds: bool, why: Reason, rest: Reason) -> Reason
    ensures { result ≡ pick holds rest why }
{
    if holds { rest } else { why }
}

// P, S and the value, before what the needs behind them say.
pub fn gate(opened: bool, unsealed: bool, value: bool, rest: Reason) -> Reason
    ensures { Some result ≡ gate_of opened unsealed value (Some rest) }
{
    if !opened {
        return Reason::Locked;
    }
    if !unsealed {
        return Reason::Barred;
    }
    rung(value, Reason::Value, rest)
}

// The same of a unit, with no need behind them.
pub fn marked(u: Unit, value: bool) -> Result<(), Reason>
    ensures { failed_of result ≡ gate_of u.unlocked (eqb u.used.lft 0) value None }
{
    need(u.unlocked, Reason::Locked)?;
    need(u.used.lft == 0, Reason::Barred)?;
    need(value, Reason::Value)
}

// The number of a command that takes one, and the same by its sign and size.
pub fn number(p: Param) -> Result<Number, Reason>
    ensures { result ≡ number_typed p }
{
    let Param::Number(x) = p else {
        return Err(Reason::Form);
    };
    Ok(x)
}

pub fn size_of(x: Number) -> Whole
    ensures { result ≡ size_of x.0 }
{
    Whole::from(x.0)
}

pub fn value(p: Param) -> Result<Whole, Reason>
    ensures { result ≡ value_typed p }
{
    Ok(Whole::from(number(p)?.0))
}

// Of one that takes nothing.
pub fn nothing(p: Param) -> Result<(), Reason>
    ensures { failed_of result ≡ need_of (is_nothing p) Form }
{
    let Param::Nothing = p else {
        return Err(Reason::Form);
    };
    Ok(())
}

pub fn refused(u: Unit, why: Reason) -> Obeyed
    ensures { obeyed_as u result ≡ answer_of (refused_of u why) }
{
    Obeyed {
        change: Change::To(changes::refuse(u, why)),
        reply: reply::refused(),
    }
}

// What a done command replies.
fn spoken(silent: bool) -> Reply
    ensures { result ≡ reply_of (spoken_text silent) }
{
    if silent {
        reply::empty()
    } else {
        reply::done()
    }
}

// Done where no reason stands against it, else refused.
pub fn settle(u: Unit, j: Judged) -> Obeyed
    ensures { obeyed_as u result ≡ told_as u j }
{
    if !reasons::passes(j.why) {
        return refused(u, j.why);
    }
    Obeyed {
        change: j.change,
        reply: spoken(j.silent),
    }
}

// A command as it hands itself on: one that starts the unit again says nothing.
pub fn done_or_refused(u: Unit, judged: Result<Change, Reason>) -> Obeyed
    ensures { obeyed_as u result ≡ judged_as u judged }
{
    match judged {
        Ok(change) => settle(
            u,
            Judged {
                change,
                silent: matches!(change, Change::Restart),
                why: Reason::None,
            },
        ),
        Err(why) => refused(u, why),
    }
}
