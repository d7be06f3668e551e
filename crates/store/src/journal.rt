// The journal: two slots at the beginning of each disk, which generations use in turn. A stripe that lies there is brought to its
// place from each disk's own slot. It reads the slot and writes the stripe's place, and nothing else.
ghost use Rattle.std.specs.Prelude.{◌≡◌, ℕ, ◌+◌, ◌<◌, ◌≤◌, true, false, length, MatchResult, ◌≢◌, slice_index};
ghost use Rattle.layout.specs.Super.{says, Proper};
ghost use Rattle.store.specs.Durable.{Went, Employed};
ghost use Rattle.store.specs.Keeping.{slot, Holds, Inside};
ghost use Rattle.store.specs.Recovers.{Only, Level, Moved, Moving, Across, Brought};

use crate::answers::{read_sector, write_sector};
use crate::{Disks, Gone};
use field::Sector;
use layout::{Members, Superblock};

// The slot of a generation.
pub fn slot_of(generation: u64) -> u64
    ensures { result ≡ slot generation }
{
    1 + generation % 2
}

// What a disk has at one sector, to another; nothing is done where it is dead.
fn carry<D: Disks>(d: &mut D, at: u32, from: u64, to: u64, words: &mut Sector) -> Result<(), Gone>
    requires left { 2 ≤ (D.shelf d.old).left }
    requires place { (from < (D.shelf d.old).sectors) × (to < (D.shelf d.old).sectors) }
    requires employed { Employed (D.shelf d.old) at }
    ensures went { Went 2 (Only at to) (D.shelf d.old) (D.seen d.old) (D.shelf d.new) (D.seen d.new) }
    ensures how { MatchResult result (λ _. ((D.shelf d.new).on ≡ true) × Moved at from to (D.shelf d.old) (D.shelf d.new)) (λ _. (D.shelf d.new).on ≡ false) }
{
    if read_sector(d, at, from, words)? {
        let _ = write_sector(d, at, to, words)?;
    }
    Ok(())
}

// The same on each member.
fn carry_all<D: Disks>(
    d: &mut D,
    members: &Members,
    from: u64,
    to: u64,
    words: &mut Sector,
) -> Result<(), Gone>
    requires left { 24 ≤ (D.shelf d.old).left }
    requires place { (from < (D.shelf d.old).sectors) × ((to < (D.shelf d.old).sectors) × ((from ≢ to))) }
    requires employed { (p : ℕ) → p < length members.now.list → Employed (D.shelf d.old) (slice_index members.now.list p) }
    ensures went { Went 24 (Level to) (D.shelf d.old) (D.seen d.old) (D.shelf d.new) (D.seen d.new) }
    ensures how { MatchResult result (λ _. Moving (length members.now.list) members.now.list from to (D.shelf d.old) (D.seen d.old) (D.shelf d.new) (D.seen d.new)) (λ _. (D.shelf d.new).on ≡ false) }
{
    for &at in members.disks() {
        carry(d, at, from, to, words)?;
    }
    Ok(())
}

// The journalled stripe to its place, on all that hold it, also on the disk that is being filled.
pub fn bring<D: Disks>(d: &mut D, b: &Superblock, words: &mut Sector) -> Result<(), Gone>
    requires left { 26 ≤ (D.shelf d.old).left }
    requires size { (128 ≤ (D.shelf d.old).sectors) × (((D.shelf d.old).sectors ≤ 4294967296) × (Inside (says b.now).journal (D.shelf d.old).sectors)) }
    requires employed { (e p r : ℕ) → Holds (says b.now) e p r → Employed (D.shelf d.old) e }
    ensures went { Went 26 (Across (says b.now)) (D.shelf d.old) (D.seen d.old) (D.shelf d.new) (D.seen d.new) }
    ensures how { MatchResult result (λ _. ((D.shelf d.old).on ≡ true → (D.shelf d.new).on ≡ true) × Brought (says b.now) (D.shelf d.old) (D.shelf d.new)) (λ _. (D.shelf d.new).on ≡ false) }
{
    let Some(r) = b.journal else {
        return Ok(());
    };
    let from = slot_of(b.generation);
    let to = 64 + r;
    carry_all(d, &b.members, from, to, words)?;
    if let Some(fill) = b.rebuild {
        if r < fill.done {
            carry(d, fill.disk, from, to, words)?;
        }
    }
    Ok(())
}
