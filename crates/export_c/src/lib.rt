// The store on disks in lent memory for programs in C and Rust, as a static library. It touches nothing but what it is lent.
// C has no `Result`, so the call has a contract of its own: false says that it was refused.
#![tactic(auto)]

ghost use Rattle.std.specs.Prelude.{◌≡◌, true, false, length};
ghost use Rattle.export.specs.Fitting.{Fitting};

use memory::Cell;

// Plays the script on sixteen disks of noughts, and leaves what was seen in the log. False, and nothing is touched, where it doesn't fit.
#[unsafe(no_mangle)]
pub extern "C" fn store_years<'a>(
    cells: &'a mut [Cell],
    log: &'a mut [u64],
    script: &'a [u64],
    room: &mut [u64],
    words: &mut [u64],
    lives: u64,
    turns: u64,
) -> bool
    ensures played { result ≡ true → Fitting (length cells.old) (length room.old) (length words.old) lives turns }
    ensures refused { result ≡ false → Fitting (length cells.old) (length room.old) (length words.old) lives turns → ⊥ }
    ensures untouched { result ≡ false → (cells.new ≡ cells.old) × (log.new ≡ log.old) × (room.new ≡ room.old) × (words.new ≡ words.old) }
{
    export::try_years(cells, log, script, room, words, lives, turns).is_ok()
}
