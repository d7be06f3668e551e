// The disks, asked one thing at a time. A disk that is dead is gone on from; the power's going goes out by `Result`.
//
// Only this module calls the disks. What it promises is in the words of specs/Durable: `went` says what holds either way (how many
// asks, what may have been written, that only deaths were seen), `how` what came of it. The shelf and what was seen stand side by side in
// each clause here and above, for so `Disks` gives them.
ghost use Rattle.std.specs.Prelude.{◌≡◌, ◌<◌, false, MatchResult};
ghost use Rattle.store.specs.Shelf.{MayAsk, MayWrite};
ghost use Rattle.store.specs.Durable.{Lives, Went, Nowhere, Here, Heard, Wrote, Synced};

use crate::{Answer, Disks, Gone};
use field::Sector;

impl Answer {
    // Whether the disk lives; that the power has gone is an error.
    fn lives(self) -> Result<bool, Gone>
        ensures { Lives self result }
    {
        match self {
            Answer::Fine => Ok(true),
            Answer::Dead => Ok(false),
            Answer::Dark => Err(Gone),
        }
    }
}

// Sector s of disk `at`, and whether the disk lives: if it does, `into` has what it shows. What is
// large is lent, so only whether the disk lives is told, here and by what asks this.
pub fn read_sector<D: Disks>(d: &mut D, at: u32, s: u64, into: &mut Sector) -> Result<bool, Gone>
    requires { MayAsk (D.shelf d.old) at s }
    ensures went { Went 1 Nowhere (D.shelf d.old) (D.seen d.old) (D.shelf d.new) (D.seen d.new) }
    ensures how { MatchResult result (λ lives. Heard at s into.new lives (D.shelf d.new)) (λ _. (D.shelf d.new).on ≡ false) }
{
    d.read(at, s, into).lives()
}

// These words to sector s of disk `at`, and whether the disk lives: if it does, it shows them.
pub fn write_sector<D: Disks>(d: &mut D, at: u32, s: u64, words: &Sector) -> Result<bool, Gone>
    requires { MayWrite (D.shelf d.old) at s }
    ensures went { Went 1 (Here at s words.now) (D.shelf d.old) (D.seen d.old) (D.shelf d.new) (D.seen d.new) }
    ensures how { MatchResult result (λ lives. Wrote at s words.now lives (D.shelf d.new)) (λ _. (D.shelf d.new).on ≡ false) }
{
    d.write(at, s, words).lives()
}

// All that is shown lasts.
pub fn sync_all<D: Disks>(d: &mut D) -> Result<(), Gone>
    requires { 0 < (D.shelf d.old).left }
    ensures went { Went 1 Nowhere (D.shelf d.old) (D.seen d.old) (D.shelf d.new) (D.seen d.new) }
    ensures how { MatchResult result (λ _. Synced (D.shelf d.new)) (λ _. (D.shelf d.new).on ≡ false) }
{
    let _ = d.sync().lives()?;
    Ok(())
}
