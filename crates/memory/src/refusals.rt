// Why something could not be done. Nothing is touched here.
ghost use Rattle.std.specs.Prelude.{Some, codes};

use std::error::Error;
use std::fmt;

// There is no room left in the log.
#[derive(Clone, Copy, PartialEq, Eq, Debug)]
pub struct LogFull;

// There is no such disk.
#[derive(Clone, Copy, PartialEq, Eq, Debug)]
pub struct NoSuchDisk;

// The disk may not die, or there is no room left to note it.
#[derive(Clone, Copy, PartialEq, Eq, Debug)]
pub struct CannotDie;

// So much is planned already that nothing more can be.
#[derive(Clone, Copy, PartialEq, Eq, Debug)]
pub struct TableFull;

impl fmt::Display for CannotDie {
    ghost output = { λ _. Some (codes "the disk may not die now") };

    fn fmt<W: fmt::Write>(&self, f: &mut fmt::Formatter<W>) -> fmt::Result {
        f.write_str("the disk may not die now")
    }
}

impl Error for CannotDie {}

impl fmt::Display for TableFull {
    ghost output = { λ _. Some (codes "no more deaths and cuts can be planned") };

    fn fmt<W: fmt::Write>(&self, f: &mut fmt::Formatter<W>) -> fmt::Result {
        f.write_str("no more deaths and cuts can be planned")
    }
}

impl Error for TableFull {}

// A disk whose death can't be noted does not die.
impl From<LogFull> for CannotDie {
    fn from(_full: LogFull) -> CannotDie {
        CannotDie
    }
}

// Nor does one that there isn't.
impl From<NoSuchDisk> for CannotDie {
    fn from(_none: NoSuchDisk) -> CannotDie {
        CannotDie
    }
}
