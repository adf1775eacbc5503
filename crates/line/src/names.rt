// The names: three folded letters, each name a fixed byte string.
ghost use Rattle.std.specs.Prelude.{◌≡◌};
ghost use Rattle.line.specs.Names.{called_of};

// Three letters, in upper case.
#[derive(Clone, Copy, PartialEq)]
pub struct Letters(pub [u8; 3]);

// The commands, in the order of document 01's table.
#[derive(Clone, Copy)]
pub enum Name {
    Gca,
    Gde,
    Cwt,
    Ldw,
    Lwt,
    Nov,
    Rsn,
    Enu,
    Dpt,
    Zse,
    Ztr,
    Lft,
    Cof,
    Tas,
    Tav,
    Tar,
    Cdl,
    Res,
    Tdd,
    Spw,
    Dpw,
    Msv,
    Tcr,
    Esr,
}

// What each command is called, in the same order.
const NAMES: [(Letters, Name); 24] = [
    (Letters(*b"GCA"), Name::Gca),
    (Letters(*b"GDE"), Name::Gde),
    (Letters(*b"CWT"), Name::Cwt),
    (Letters(*b"LDW"), Name::Ldw),
    (Letters(*b"LWT"), Name::Lwt),
    (Letters(*b"NOV"), Name::Nov),
    (Letters(*b"RSN"), Name::Rsn),
    (Letters(*b"ENU"), Name::Enu),
    (Letters(*b"DPT"), Name::Dpt),
    (Letters(*b"ZSE"), Name::Zse),
    (Letters(*b"ZTR"), Name::Ztr),
    (Letters(*b"LFT"), Name::Lft),
    (Letters(*b"COF"), Name::Cof),
    (Letters(*b"TAS"), Name::Tas),
    (Letters(*b"TAV"), Name::Tav),
    (Letters(*b"TAR"), Name::Tar),
    (Letters(*b"CDL"), Name::Cdl),
    (Letters(*b"RES"), Name::Res),
    (Letters(*b"TDD"), Name::Tdd),
    (Letters(*b"SPW"), Name::Spw),
    (Letters(*b"DPW"), Name::Dpw),
    (Letters(*b"MSV"), Name::Msv),
    (Letters(*b"TCR"), Name::Tcr),
    (Letters(*b"ESR"), Name::Esr),
];

pub fn called_by(n: Letters) -> Option<Name>
    ensures { result ≡ called_of n }
{
    for &(letters, name) in &NAMES {
        if n == letters {
            return Some(name);
        }
    }
    None
}
