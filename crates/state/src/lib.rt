// The unit: what it holds, the values it may hold, and the changes that commands and events make to it.
#![tactic(auto)]

use line::cut::{MOST, Pos};
use weight::{Cell, Digits, Scale, Tenths};

pub mod changes;
pub mod in_range;
pub mod ranged;
pub mod reasons;
pub mod table;

// What the unit last saw: nothing since the restart, a sample beyond the cell's range, or a number with the cell's still flag. These are four cases
// for each reader: an `Option` round three of them would be two matches for one.
#[derive(Clone, Copy)]
pub enum Seen {
    Nothing,
    Over,
    Under,
    Number(Cell, bool),
}

// The settings marked S: the curve in force with GCA, GDE, NOV and RSN, and the others; `cwt` is the waiting one. Codes are the numbers that lines
// and replies have, here and below, and no enums: `wire::take` and its like answer on every unit, whatever its numbers (`ranged_of`).
#[derive(Clone, Copy)]
pub struct Sealed {
    pub scale: Scale,
    pub cwt: u64,
    pub enu: u64,
    pub dpt: u64,
    pub zse: u64,
    pub ztr: u64,
}

// The settings with no mark.
#[derive(Clone, Copy)]
pub struct Free {
    pub cof: u64,
    pub tas: u64,
    pub tare: Digits,
}

#[derive(Clone, Copy)]
pub struct Settings {
    pub sealed: Sealed,
    pub lft: u64,
    pub free: Free,
}

// The zero of the first zeroing, the zero set or tracked later, and whether the first zeroing waits.
#[derive(Clone, Copy)]
pub struct Zeros {
    pub z0: Tenths,
    pub z1: Tenths,
    pub waits: bool,
}

// The waiting zero point; 0 where none is held. No `Option`, since `point_in` speaks of the number of a unit that holds none, too.
#[derive(Clone, Copy)]
pub struct Point {
    pub held: bool,
    pub at: Cell,
}

// Its first `len` bytes; the others are zero. The memory is fixed, and `lock_in` speaks of every length.
#[derive(Clone, Copy, PartialEq)]
pub struct Password {
    pub bytes: [u8; 7],
    pub len: usize,
}

// `kept` and `pos` are the line so far, in fixed memory; the loop over a block holds them apart while a line comes in. `reason` is a number, since a
// unit may hold any (`lock_in`); `Reason` gives it.
#[derive(Clone, Copy)]
pub struct Unit {
    pub kept: [u8; MOST],
    pub pos: Pos,
    pub used: Settings,
    pub saved: Settings,
    pub zeros: Zeros,
    pub seen: Seen,
    pub point: Point,
    pub unlocked: bool,
    pub password: Password,
    pub counter: u64,
    pub reason: u64,
}

// The parts of the unit that a command could change, as they stand after it. It changes neither the line nor the sample. Where it `saves`, the
// settings in use become the saved ones too; the flag hangs on no value. Counter and reason are the unit's numbers.
#[derive(Clone, Copy)]
pub struct Parts {
    pub used: Settings,
    pub zeros: Zeros,
    pub point: Point,
    pub password: Password,
    pub counter: u64,
    pub reason: u64,
    pub unlocked: bool,
    pub saves: bool,
}

// What a command hands on: that the unit is to start again, or its parts.
#[derive(Clone, Copy)]
pub enum Change {
    Restart,
    To(Parts),
}

// The sealed settings that one command sets and that make the resets; LWT's curve and LFT make them too, and have functions of their own.
#[derive(Clone, Copy)]
pub enum Setting {
    Gca,
    Gde,
    Nov,
    Rsn,
    Enu,
    Dpt,
    Zse,
    Ztr,
}

// Why a command is refused, with the numbers that ESR? gives. `None` is 0, what ESR? gives where nothing was refused: no need has it, and a command
// that is not refused is `Ok`, but `refuse` takes every reason.
#[derive(Clone, Copy, PartialEq)]
pub enum Reason {
    None = 0,
    Long = 10,
    Form = 2,
    Unknown = 1,
    Locked = 4,
    Barred = 5,
    Value = 3,
    Differs = 11,
    Unsteady = 6,
    Pointless = 8,
    Range = 7,
    Stands = 9,
}
