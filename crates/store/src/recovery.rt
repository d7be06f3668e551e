// Coming up: the newest superblock of all disks is found, written again, and its journalled stripe brought to its place. It reads
// sector 0 of every disk, writes that of three, and the journalled stripe's place; it may be cut as often as it likes.
ghost use Rattle.std.specs.Prelude.{◌≡◌, ℕ, ◌+◌, ◌<◌, ◌≤◌, false, MatchResult};
ghost use Rattle.layout.specs.Super.{says, super_of};
ghost use Rattle.layout.specs.declared.members.Marks.TheVariants.{Nobody};
ghost use Rattle.store.specs.Durable.{Went, Deaths, Nowhere};
ghost use Rattle.store.specs.Recovers.{Open, newer, Looked, Recovered, Lapsed, Up, Down};

use crate::answers::read_sector;
use crate::commit::head;
use crate::journal::bring;
use crate::{Disks, Gone};
use field::Sector;
use layout::{Superblock, generation_of};

// The newer of two sectors stays in `best`.
fn keep_newer(best: &mut Sector, other: &Sector)
    ensures { best.new ≡ newer best.old other.now }
{
    if generation_of(best) <= generation_of(other) {
        *best = *other;
    }
}

// The newest sector 0 of the sixteen disks, in `best`.
fn look<D: Disks>(d: &mut D, best: &mut Sector, other: &mut Sector) -> Result<(), Gone>
    requires left { 16 ≤ (D.shelf d.old).left }
    requires size { 0 < (D.shelf d.old).sectors }
    ensures went { Went 16 Nowhere (D.shelf d.old) (D.seen d.old) (D.shelf d.new) (D.seen d.new) }
    ensures how { MatchResult result (λ _. Looked 16 best.new (D.shelf d.old) (D.seen d.old) (D.shelf d.new) (D.seen d.new)) (λ _. (D.shelf d.new).on ≡ false) }
{
    best[0] = 0;
    for i in 0..16u32 {
        if read_sector(d, i, 0, other)? {
            keep_newer(best, other);
        }
    }
    Ok(())
}

// It is found, and written again to its three members.
fn recover<D: Disks>(d: &mut D, best: &mut Sector, other: &mut Sector) -> Result<Superblock, Gone>
    requires left { 20 ≤ (D.shelf d.old).left }
    requires held { Open (D.shelf d.old) }
    ensures deaths { Deaths (D.shelf d.old) (D.seen d.old) (D.shelf d.new) (D.seen d.new) }
    ensures spent { (D.shelf d.old).left ≤ (D.shelf d.new).left + 20 }
    ensures how { MatchResult result (λ b. Recovered (says b) (D.shelf d.old) (D.shelf d.new) × (b.members.dead ≡ Nobody)) (λ _. Lapsed (D.shelf d.old) (D.shelf d.new)) }
{
    look(d, best, other)?;
    let found = Superblock::decode(best);
    head(d, &found, other)?;
    Ok(found)
}

// All that coming up does with the disks.
pub fn come_up<D: Disks>(
    d: &mut D,
    best: &mut Sector,
    other: &mut Sector,
) -> Result<Superblock, Gone>
    requires left { 46 ≤ (D.shelf d.old).left }
    requires held { Open (D.shelf d.old) }
    ensures deaths { Deaths (D.shelf d.old) (D.seen d.old) (D.shelf d.new) (D.seen d.new) }
    ensures spent { (D.shelf d.old).left ≤ (D.shelf d.new).left + 46 }
    ensures how { MatchResult result (λ b. Up (says b) (D.shelf d.old) (D.shelf d.new) × (b.members.dead ≡ Nobody)) (λ _. Down (D.shelf d.old) (D.shelf d.new)) }
{
    let found = recover(d, best, other)?;
    bring(d, &found, best)?;
    Ok(found)
}
