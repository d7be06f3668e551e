// The next superblock: what was staged is made lasting, and then three members are told. It asks the disks, and writes sector 0 of
// three of them.
ghost use Rattle.std.specs.Prelude.{◌≡◌, ◌<◌, ◌≤◌, false, List, MatchResult};
ghost use Rattle.layout.specs.Super.{super_of, says};
ghost use Rattle.store.specs.Durable.{Went};
ghost use Rattle.store.specs.Commits.{CanHead, Heading, Headed, Copying, Committed, Interrupted};

use crate::answers::{sync_all, write_sector};
use crate::{Disks, Gone};
use field::Sector;
use layout::Superblock;

// The words of a superblock to the members at its places 0, 1 and 2.
fn write_copies<D: Disks>(d: &mut D, next: &Superblock, words: &Sector) -> Result<(), Gone>
    requires left { 3 ≤ (D.shelf d.old).left }
    requires heads { CanHead (D.shelf d.old) (says next.now) }
    requires lent { super_of words.now ≡ says next.now }
    ensures went { Went 3 (Heading (says next.now)) (D.shelf d.old) (D.seen d.old) (D.shelf d.new) (D.seen d.new) }
    ensures how { MatchResult result (λ _. Copying 3 (says next.now) words.now (D.shelf d.old) (D.seen d.old) (D.shelf d.new) (D.seen d.new)) (λ _. (D.shelf d.new).on ≡ false) }
{
    for &at in &next.members.disks()[..3] {
        let _ = write_sector(d, at, 0, words)?;
    }
    Ok(())
}

// A superblock to its three members, for good. The words are made in `words`.
pub fn head<D: Disks>(d: &mut D, next: &Superblock, words: &mut Sector) -> Result<(), Gone>
    requires left { 4 ≤ (D.shelf d.old).left }
    requires heads { CanHead (D.shelf d.old) (says next.now) }
    ensures went { Went 4 (Heading (says next.now)) (D.shelf d.old) (D.seen d.old) (D.shelf d.new) (D.seen d.new) }
    ensures how { MatchResult result (λ _. Headed (says next.now) (D.shelf d.new)) (λ _. (D.shelf d.new).on ≡ false) }
{
    next.encode(words);
    write_copies(d, next, words)?;
    sync_all(d)
}

// What was staged lasts, and then the next superblock is in force.
pub fn commit<D: Disks>(d: &mut D, next: &Superblock, words: &mut Sector) -> Result<(), Gone>
    requires left { 5 ≤ (D.shelf d.old).left }
    requires heads { CanHead (D.shelf d.old) (says next.now) }
    ensures went { Went 5 (Heading (says next.now)) (D.shelf d.old) (D.seen d.old) (D.shelf d.new) (D.seen d.new) }
    ensures how { MatchResult result (λ _. Committed (says next.now) (D.shelf d.old) (D.shelf d.new)) (λ _. Interrupted (says next.now) (D.shelf d.old) (D.shelf d.new)) }
{
    sync_all(d)?;
    head(d, next, words)
}
