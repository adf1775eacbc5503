// The settings' value sets, their factory values, and a setting changed.
ghost use Rattle.std.specs.Prelude.{◌≡◌};
ghost use Rattle.whole.specs.Sets.{has};
ghost use Rattle.state.specs.Settings.{codes, switches, modes, formats, set_of, put, with_cwt, factory_of};

use crate::{Free, Sealed, Setting, Settings};
use weight::{Cell, Curve, Digits, Scale, sets};
use whole::Whole;

// Each set stands once, under its name in document 01.
pub fn is_code(x: Whole) -> bool
    ensures { result ≡ has codes x.plus x.n }
{
    x.is_between(0, 4)
}

pub fn is_switch(x: Whole) -> bool
    ensures { result ≡ has switches x.plus x.n }
{
    x.is_between(0, 1)
}

// LFT's values: a set of its own in document 01, though it has the codes' numbers now.
pub fn is_mode(x: Whole) -> bool
    ensures { result ≡ has modes x.plus x.n }
{
    x.is_between(0, 4)
}

pub fn is_format(x: Whole) -> bool
    ensures { result ≡ has formats x.plus x.n }
{
    x.plus & matches!(x.n, 0 | 2 | 3 | 9)
}

// What the command of a setting takes.
pub fn takes(k: Setting, x: Whole) -> bool
    ensures { result ≡ has (set_of k) x.plus x.n }
{
    match k {
        Setting::Gca | Setting::Gde => sets::is_gravity(x),
        Setting::Nov => sets::is_nominal(x),
        Setting::Rsn => sets::is_step(x),
        Setting::Enu | Setting::Dpt | Setting::Zse => is_code(x),
        Setting::Ztr => is_switch(x),
    }
}

// A setting changed.
pub fn with_setting(k: Setting, q: Sealed, n: u64) -> Sealed
    ensures { result ≡ put k q n }
{
    let mut t = q;
    match k {
        Setting::Gca => t.scale.gca = n,
        Setting::Gde => t.scale.gde = n,
        Setting::Nov => t.scale.nov = n,
        Setting::Rsn => t.scale.rsn = n,
        Setting::Enu => t.enu = n,
        Setting::Dpt => t.dpt = n,
        Setting::Zse => t.zse = n,
        Setting::Ztr => t.ztr = n,
    }
    t
}

pub fn with_cwt(q: Sealed, n: u64) -> Sealed
    ensures { result ≡ with_cwt q n }
{
    Sealed { cwt: n, ..q }
}

pub fn factory() -> Settings
    ensures { result ≡ factory_of }
{
    Settings {
        sealed: Sealed {
            scale: Scale {
                curve: Curve {
                    l: Cell(0),
                    w: Cell(1_000_000),
                    c: 1_000_000,
                },
                gca: 981_040,
                gde: 981_040,
                nov: 3000,
                rsn: 1,
            },
            cwt: 1_000_000,
            enu: 0,
            dpt: 0,
            zse: 0,
            ztr: 0,
        },
        lft: 0,
        free: Free {
            cof: 3,
            tas: 1,
            tare: Digits(0),
        },
    }
}
