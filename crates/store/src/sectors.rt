// A sector of the store, from the disks and to them, under the superblock that is in force. What is read leaves all as it was; what
// is written goes through the journal and lasts when this is done.
ghost use Rattle.std.specs.Prelude.{◌≡◌, ℕ, ◌+◌, ◌-◌, ◌*◌, ◌^◌, ◌<◌, ◌≤◌, Bool, true, false, length, MatchResult};
ghost use Rattle.layout.specs.Places.{stripe_of};
ghost use Rattle.layout.specs.Super.{says};
ghost use Rattle.store.specs.Durable.{Went, Deaths, Nowhere};
ghost use Rattle.store.specs.Keeping.{Columns, Ready};
ghost use Rattle.store.specs.Stripes.{extra};
ghost use Rattle.store.specs.Writes.{MarksTrue, journalling};
ghost use Rattle.store.specs.Sectors.{Coded, Fetched, Saved, Unsaved};

use crate::stripe::{Row, learn, read_column};
use crate::write::StripeWrite;
use crate::{Disks, Gone};
use field::Sector;
use layout::{Superblock, locate};

// Sector s of the store, into `into`; `columns` is room for a stripe.
pub fn read<D: Disks>(
    d: &mut D,
    b: &mut Superblock,
    n: u64,
    s: u64,
    into: &mut Sector,
    columns: &mut [Sector],
) -> Result<(), Gone>
    requires left { 1 + length b.old.members.list ≤ (D.shelf d.old).left }
    requires size { (n ≡ (D.shelf d.old).sectors) × (s < (length b.old.members.list - 2) * (n - 64)) }
    requires ready { (c : Columns) × Ready (D.shelf d.old) (says b.old) c }
    requires marks { MarksTrue (D.shelf d.old) b.old.members }
    requires lent { length columns.old ≡ length b.old.members.list }
    ensures went { Went (1 + length b.old.members.list) Nowhere (D.shelf d.old) (D.seen d.old) (D.shelf d.new) (D.seen d.new) }
    ensures same { (says b.new ≡ says b.old) × (MarksTrue (D.shelf d.new) b.new.members) }
    ensures how { MatchResult result (λ _. Fetched n s into.new (says b.old) (D.shelf d.old) (D.shelf d.new)) (λ _. (D.shelf d.new).on ≡ false) }
{
    let at = locate(s, n - 64);
    let r = at.stripe;
    let row = Row {
        stripe: r,
        sector: 64 + r,
    };
    let missing = read_column(d, &b.members, row, 2 + at.column, into, columns)?;
    learn(&mut b.members, missing, r);
    Ok(())
}

// These words for sector s of the store; the superblock is the next one then.
pub fn write<D: Disks>(
    d: &mut D,
    b: &mut Superblock,
    n: u64,
    s: u64,
    words: &Sector,
    columns: &mut [Sector],
) -> Result<(), Gone>
    requires left { 2 * length b.old.members.list + 2 * extra b.old.rebuild + 8 ≤ (D.shelf d.old).left }
    requires size { (n ≡ (D.shelf d.old).sectors) × (s < (length b.old.members.list - 2) * (n - 64)) }
    requires ready { (c : Columns) × (Ready (D.shelf d.old) (says b.old) c × Coded (length b.old.members.list) c) }
    requires marks { MarksTrue (D.shelf d.old) b.old.members }
    requires few { b.old.generation + 1 < 2 ^ 64 }
    requires lent { length columns.old ≡ length b.old.members.list }
    ensures deaths { Deaths (D.shelf d.old) (D.seen d.old) (D.shelf d.new) (D.seen d.new) }
    ensures spent { (D.shelf d.old).left ≤ (D.shelf d.new).left + (2 * length b.old.members.list + 2 * extra b.old.rebuild + 8) }
    ensures how { MatchResult result (λ _. (says b.new ≡ journalling (says b.old) (stripe_of (n - 64) s)) × MarksTrue (D.shelf d.new) b.new.members × Saved n s words.now (says b.old) (D.shelf d.old) (D.shelf d.new)) (λ _. Unsaved n s words.now (says b.old) (D.shelf d.old) (D.shelf d.new)) }
{
    let at = locate(s, n - 64);
    let r = at.stripe;
    let mut sector = [0; 64];
    let mut change = StripeWrite::begin(d, r);
    let missing = change.load(&b.members, columns)?;
    learn(&mut b.members, missing, r);
    change.take(at.column, words, columns);
    let lasting = change.journal(b, columns, &mut sector)?;
    change.place(lasting, b, columns)
}
