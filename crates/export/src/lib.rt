// The store on disks in lent memory, for programs in C and Rust, where no proof holds a caller to a contract: what doesn't fit is refused.
// It touches nothing but what it is lent. The crate `export_c` exports it.
#![tactic(auto)]

ghost use Rattle.std.specs.Prelude.{◌≡◌, ◌↔◌, length, Some, IsTrue, OnOk, OnErr, codes};
ghost use Rattle.export.specs.Fitting.{Fitting};

use memory::{Cell, Memory};
use std::error::Error;
use std::fmt;
use store::years;

// Not as much was lent as `years` needs, or it is to go on for longer than it may. An error of this crate's own: the
// field's says another thing.
#[derive(Clone, Copy, PartialEq, Eq, Debug)]
pub struct Misfit;

impl fmt::Display for Misfit {
    ghost output = { λ _. Some (codes "what is lent does not fit") };

    fn fmt<W: fmt::Write>(&self, f: &mut fmt::Formatter<W>) -> fmt::Result {
        f.write_str("what is lent does not fit")
    }
}

impl Error for Misfit {}

// The fewest cells, 128 for each of sixteen disks, and the most, 2^32 for each.
const FEWEST: usize = 2048;

const MOST: usize = 68719476736;

// Whether so much was lent as `years` needs, and it is to go on for so long as it may.
fn fits(cells: usize, room: usize, words: usize, lives: u64, turns: u64) -> bool
    ensures { IsTrue result ↔ Fitting cells room words lives turns }
{
    FEWEST <= cells
        && cells <= MOST
        && room == 65536
        && words == 64
        && lives < 1048576
        && turns < 1099511627776
}

// Plays the script on sixteen disks of noughts, and leaves what was seen in the log. What doesn't fit is refused, and nothing is touched.
// The parameters are those of the C function.
pub fn try_years<'a>(
    cells: &'a mut [Cell],
    log: &'a mut [u64],
    script: &'a [u64],
    room: &mut [u64],
    words: &mut [u64],
    lives: u64,
    turns: u64,
) -> Result<(), Misfit>
    ensures played { OnOk result (Fitting (length cells.old) (length room.old) (length words.old) lives turns) }
    ensures refused { OnErr result (Fitting (length cells.old) (length room.old) (length words.old) lives turns → ⊥) }
    ensures untouched { OnErr result ((cells.new ≡ cells.old) × (log.new ≡ log.old) × (room.new ≡ room.old) × (words.new ≡ words.old)) }
{
    if !fits(cells.len(), room.len(), words.len(), lives, turns) {
        return Err(Misfit);
    }
    let mut m = Memory::new(cells, log, script);
    years(&mut m, room, words, lives, turns);
    Ok(())
}
