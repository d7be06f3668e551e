// Stripes, from the members and to them: one sector of each, at a stripe's place or in a journal slot. Members that are dead are
// gone on from, and up to two columns that are missing are had again from the others.
//
// It asks the disks of the members that it is given, at the one sector that it is given. What is required of the disks stands in each contract,
// mostly with the members: the disks are the caller's type, of which the trait tells a shelf.
ghost use Rattle.std.specs.Prelude.{◌≡◌, ℕ, ◌+◌, ◌<◌, ◌≤◌, Bool, true, false, length, MatchResult, slice_index};
ghost use Rattle.field.specs.Stripe.{held};
ghost use Rattle.layout.specs.Super.{says, Proper, Joins};
ghost use Rattle.store.specs.Shelf.{count};
ghost use Rattle.store.specs.Durable.{Went, Nowhere, Here, Shows, Employed};
ghost use Rattle.store.specs.Keeping.{Holds};
ghost use Rattle.store.specs.Stripes.{Serving, Answered, Loaded, Read, learned, Spread, Storing, Held, Stored, FillsWith, extra, chosen};

use crate::answers::{read_sector, write_sector};
use crate::selection::Selection;
use crate::{Disks, Gone};
use field::{Missing, Sector, mend};
use layout::{Members, Superblock, index_of, place_of};

// Where a stripe lies: the sector of each of its disks that has a column of it, at the stripe's place or in a journal slot.
#[derive(Clone, Copy, PartialEq, Eq, Debug)]
pub struct Row {
    pub stripe: u64,
    pub sector: u64,
}

// Sector s of the member at place p, and whether it lives; one that is known to be dead is not asked.
fn fetch<D: Disks>(
    d: &mut D,
    members: &Members,
    p: usize,
    s: u64,
    into: &mut Sector,
) -> Result<bool, Gone>
    requires left { 0 < (D.shelf d.old).left }
    requires place { (p < length members.now.list) × (s < (D.shelf d.old).sectors) }
    requires serving { Serving (D.shelf d.old) members.now }
    ensures went { Went 1 Nowhere (D.shelf d.old) (D.seen d.old) (D.shelf d.new) (D.seen d.new) }
    ensures how { MatchResult result (λ lives. Answered (slice_index members.now.list p) s into.new lives (D.shelf d.old) (D.shelf d.new)) (λ _. (D.shelf d.new).on ≡ false) }
{
    if members.is_marked(p) {
        return Ok(false);
    }
    let at = members.at(p);
    read_sector(d, at, s, into)
}

// All columns of a stripe, from the members; says which were missing, and were had again.
pub fn load<D: Disks>(
    d: &mut D,
    members: &Members,
    row: Row,
    stripe: &mut [Sector],
) -> Result<Missing, Gone>
    requires left { length members.now.list ≤ (D.shelf d.old).left }
    requires size { row.sector < (D.shelf d.old).sectors }
    requires serving { Serving (D.shelf d.old) members.now }
    requires lent { length stripe.old ≡ length members.now.list }
    ensures went { Went (length members.now.list) Nowhere (D.shelf d.old) (D.seen d.old) (D.shelf d.new) (D.seen d.new) }
    ensures how { MatchResult result (λ missing. Loaded missing members.now.list row.sector row.stripe stripe.new (D.shelf d.old) (D.shelf d.new)) (λ _. (D.shelf d.new).on ≡ false) }
{
    let mut missing = Missing::Nothing;
    for (i, column) in stripe.iter_mut().enumerate() {
        let p = place_of(i, row.stripe);
        if !fetch(d, members, p, row.sector, column)? {
            missing = missing.also(i);
        }
    }
    let _ = mend(stripe, missing);
    Ok(missing)
}

// Column i of a stripe alone: from its own member by one ask, or, if that is dead, from the others; says which were missing.
pub fn read_column<D: Disks>(
    d: &mut D,
    members: &Members,
    row: Row,
    i: usize,
    into: &mut Sector,
    stripe: &mut [Sector],
) -> Result<Missing, Gone>
    requires left { 1 + length members.now.list ≤ (D.shelf d.old).left }
    requires size { (row.sector < (D.shelf d.old).sectors) × (i < length members.now.list) }
    requires serving { Serving (D.shelf d.old) members.now }
    requires lent { length stripe.old ≡ length members.now.list }
    ensures went { Went (1 + length members.now.list) Nowhere (D.shelf d.old) (D.seen d.old) (D.shelf d.new) (D.seen d.new) }
    ensures how { MatchResult result (λ missing. Read missing members.now.list row.sector row.stripe i into.new (D.shelf d.old) (D.shelf d.new)) (λ _. (D.shelf d.new).on ≡ false) }
{
    let p = place_of(i, row.stripe);
    if fetch(d, members, p, row.sector, into)? {
        return Ok(Missing::Nothing);
    }
    let missing = load(d, members, row, stripe)?;
    *into = stripe[i];
    Ok(missing)
}

// Members whose columns of stripe r were missing are known to be dead from now on.
pub fn learn(members: &mut Members, missing: Missing, r: u64)
    ensures list { members.new.list ≡ members.old.list }
    ensures marks { members.new.dead ≡ learned members.old.dead missing r }
{
    match missing {
        Missing::Nothing => {}
        Missing::One(a) => {
            members.mark(place_of(a, r));
        }
        Missing::Two(a, b) => {
            members.mark(place_of(a, r));
            members.mark(place_of(b, r));
        }
    }
}

// Words to sector s of the member at place p; one that is known to be dead is not asked.
fn lay<D: Disks>(d: &mut D, members: &Members, p: usize, s: u64, words: &Sector) -> Result<(), Gone>
    requires left { 0 < (D.shelf d.old).left }
    requires place { (p < length members.now.list) × (s < (D.shelf d.old).sectors) }
    requires serving { Serving (D.shelf d.old) members.now }
    ensures went { Went 1 (Here (slice_index members.now.list p) s words.now) (D.shelf d.old) (D.seen d.old) (D.shelf d.new) (D.seen d.new) }
    ensures how { MatchResult result (λ _. ((D.shelf d.old).on ≡ true → (D.shelf d.new).on ≡ true) × Shows (D.shelf d.new) (slice_index members.now.list p) s words.now) (λ _. (D.shelf d.new).on ≡ false) }
{
    if !members.is_marked(p) {
        let at = members.at(p);
        let _ = write_sector(d, at, s, words)?;
    }
    Ok(())
}

// The selected columns of a stripe to the members, each by one ask.
pub fn store_members<D: Disks>(
    d: &mut D,
    members: &Members,
    row: Row,
    stripe: &[Sector],
    which: &Selection,
) -> Result<(), Gone>
    requires left { count (length members.now.list) (chosen which.now) ≤ (D.shelf d.old).left }
    requires size { row.sector < (D.shelf d.old).sectors }
    requires serving { Serving (D.shelf d.old) members.now }
    requires lent { length stripe.now ≡ length members.now.list }
    ensures went { Went (count (length members.now.list) (chosen which.now)) (Spread (chosen which.now) members.now.list row.sector row.stripe (held stripe.now)) (D.shelf d.old) (D.seen d.old) (D.shelf d.new) (D.seen d.new) }
    ensures how { MatchResult result (λ _. Storing (length members.now.list) (chosen which.now) members.now.list row.sector row.stripe (held stripe.now) (D.shelf d.old) (D.seen d.old) (D.shelf d.new) (D.seen d.new)) (λ _. (D.shelf d.new).on ≡ false) }
{
    for (i, column) in stripe.iter().enumerate() {
        if which.has(i) {
            lay(d, members, place_of(i, row.stripe), row.sector, column)?;
        }
    }
    Ok(())
}

// What a disk that is being filled has of a stripe: one column.
#[derive(Clone, Copy, PartialEq, Eq, Debug)]
pub struct Share {
    pub disk: u32,
    pub column: usize,
}

// The share of the disk that is being filled, if it has stripe r already.
fn share_of(b: &Superblock, r: u64) -> Option<Share>
    requires { Joins b.now.rebuild b.now.members.list }
    ensures { FillsWith result b.now.rebuild r }
{
    let fill = b.rebuild?;
    if r < fill.done {
        Some(Share {
            disk: fill.disk,
            column: index_of(fill.place, r),
        })
    } else {
        None
    }
}

// Column i, which behind the last is noughts, to sector s of a disk.
fn write_column<D: Disks>(
    d: &mut D,
    at: u32,
    s: u64,
    i: usize,
    stripe: &[Sector],
) -> Result<(), Gone>
    requires left { 0 < (D.shelf d.old).left }
    requires place { s < (D.shelf d.old).sectors }
    requires employed { Employed (D.shelf d.old) at }
    ensures went { Went 1 (Here at s (held stripe.now i)) (D.shelf d.old) (D.seen d.old) (D.shelf d.new) (D.seen d.new) }
    ensures how { MatchResult result (λ _. ((D.shelf d.new).on ≡ true) × Shows (D.shelf d.new) at s (held stripe.now i)) (λ _. (D.shelf d.new).on ≡ false) }
{
    let column = stripe.get(i).unwrap_or(&[0; 64]);
    let _ = write_sector(d, at, s, column)?;
    Ok(())
}

// The selected columns of a stripe to all that hold it, also of the disk that is being filled.
pub fn store<D: Disks>(
    d: &mut D,
    b: &Superblock,
    row: Row,
    stripe: &[Sector],
    which: &Selection,
) -> Result<(), Gone>
    requires left { count (length b.now.members.list) (chosen which.now) + extra b.now.rebuild ≤ (D.shelf d.old).left }
    requires size { row.sector < (D.shelf d.old).sectors }
    requires proper { Proper (says b.now) }
    requires serving { Serving (D.shelf d.old) b.now.members }
    requires employed { (e p t : ℕ) → Holds (says b.now) e p t → Employed (D.shelf d.old) e }
    requires lent { length stripe.now ≡ length b.now.members.list }
    ensures went { Went (count (length b.now.members.list) (chosen which.now) + extra b.now.rebuild) (Held (chosen which.now) (says b.now) row.sector row.stripe) (D.shelf d.old) (D.seen d.old) (D.shelf d.new) (D.seen d.new) }
    ensures how { MatchResult result (λ _. ((D.shelf d.old).on ≡ true → (D.shelf d.new).on ≡ true) × Stored (chosen which.now) (says b.now) row.sector row.stripe (held stripe.now) (D.shelf d.new)) (λ _. (D.shelf d.new).on ≡ false) }
{
    store_members(d, &b.members, row, stripe, which)?;
    if let Some(share) = share_of(b, row.stripe) {
        if which.has(share.column) {
            write_column(d, share.disk, row.sector, share.column, stripe)?;
        }
    }
    Ok(())
}
