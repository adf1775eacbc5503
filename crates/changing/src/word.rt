// The password: SPW and DPW.
ghost use Rattle.std.specs.Prelude.{◌≡◌, take, drop};
ghost use Rattle.plans.specs.Plans.{word_of, same_word, spw_plan, dpw_plan};
ghost use Rattle.plans.specs.Obey.{judge};
ghost use Rattle.plans.specs.ObeyLaws.{answer_of, judged_as};
ghost use Rattle.changing.specs.Steps.{word_typed};

use line::shape::Param;
use plans::judge::need;
use state::{Change, Password, Reason, Unit, changes};

// A text in the line, as far as the line reaches.
fn text(s: &[u8], start: usize, len: usize) -> &[u8]
    ensures { result.now ≡ take len (drop start s.now) }
{
    let Some(rest) = s.get(start..) else {
        return &[];
    };
    rest.get(..len).unwrap_or(rest)
}

fn word_of(t: &[u8]) -> Password
    ensures { result ≡ word_of t.now }
{
    let mut bytes = [0u8; 7];
    let n = t.len().min(7);
    bytes[..n].copy_from_slice(&t[..n]);
    Password {
        bytes,
        len: t.len(),
    }
}

fn same_word(a: Password, b: Password) -> bool
    ensures { result ≡ same_word a b }
{
    a == b
}

// The text of a command that takes one, as a password.
fn word(s: &[u8], p: Param) -> Result<Password, Reason>
    ensures { result ≡ word_typed s.now p }
{
    let Param::Text { start, len } = p else {
        return Err(Reason::Form);
    };
    Ok(word_of(text(s, start, len)))
}

#[tactic(auto, unfolding(plans::specs::Obey::judge))]
pub fn on_spw(u: Unit, s: &[u8], p: Param) -> Result<Change, Reason>
    ensures { judged_as u result ≡ answer_of (judge u (spw_plan u s.now p)) }
{
    let w = word(s, p)?;
    need(same_word(w, u.password), Reason::Differs)?;
    Ok(Change::To(changes::set_lock(u, true)))
}

#[tactic(auto, unfolding(plans::specs::Obey::judge, plans::specs::Plans::word_of))]
pub fn on_dpw(u: Unit, s: &[u8], p: Param) -> Result<Change, Reason>
    ensures { judged_as u result ≡ answer_of (judge u (dpw_plan u s.now p)) }
{
    let w = word(s, p)?;
    need((1..=7).contains(&w.len), Reason::Value)?;
    Ok(Change::To(changes::set_password(u, w)))
}
