// A stripe that is to be written, as a value: begun, it is loaded and takes sectors; ended, it lies in the journal and a superblock
// says so; only what that hands out allows to store it in its place. Dropped before that, nothing was written since.
//
// It asks the disks of the members and of the disk that is being filled, at the stripe's place, in the journal slot and at sector 0. That there
// is a next generation is required where one is begun, and is no invariant of a superblock: what is read from a disk may say any.
ghost use Rattle.std.specs.Prelude.{◌≡◌, ℕ, ◌+◌, ◌^◌, ◌<◌, ◌≤◌, Bool, true, false, length, replicate, Some, MatchResult, slice_set};
ghost use Rattle.field.specs.Stripe.{held, Few, Put};
ghost use Rattle.layout.specs.Super.{says};
ghost use Rattle.store.specs.Shelf.{count};
ghost use Rattle.store.specs.Durable.{Deaths, Went, Nowhere};
ghost use Rattle.store.specs.Keeping.{Columns, Sound, Ready};
ghost use Rattle.store.specs.Stripes.{Serving, Loaded, extra, chosen};
ghost use Rattle.store.specs.Writes.{MarksTrue, journalling, Journalled, Unjournalled, Placing, Unplaced};

use crate::commit::commit;
use crate::journal::slot_of;
use crate::selection::Selection;
use crate::stripe::{Row, load, store};
use crate::{Disks, Gone};
use field::{Missing, Sector, put};
use layout::{Members, Superblock};

// Stripe r, whole, to the slot of the next generation, and the commit that says so. The superblock is the next one then.
fn journal_stripe<D: Disks>(
    d: &mut D,
    b: &mut Superblock,
    r: u64,
    stripe: &[Sector],
    sector: &mut Sector,
) -> Result<(), Gone>
    requires left { length b.old.members.list + extra b.old.rebuild + 5 ≤ (D.shelf d.old).left }
    requires place { 64 + r < (D.shelf d.old).sectors }
    requires ready { (c : Columns) × Ready (D.shelf d.old) (says b.old) c }
    requires marks { MarksTrue (D.shelf d.old) b.old.members }
    requires few { b.old.generation + 1 < 2 ^ 64 }
    requires lent { length stripe.now ≡ length b.old.members.list }
    ensures deaths { Deaths (D.shelf d.old) (D.seen d.old) (D.shelf d.new) (D.seen d.new) }
    ensures spent { (D.shelf d.old).left ≤ (D.shelf d.new).left + (length b.old.members.list + extra b.old.rebuild + 5) }
    ensures how { MatchResult result (λ _. (says b.new ≡ journalling (says b.old) r) × (b.new.members ≡ b.old.members) × Journalled (says b.old) r (held stripe.now) (D.shelf d.old) (D.shelf d.new)) (λ _. Unjournalled (says b.old) r (held stripe.now) (D.shelf d.old) (D.shelf d.new)) }
{
    let slot = slot_of(b.generation + 1);
    let row = Row {
        stripe: r,
        sector: slot,
    };
    store(d, b, row, stripe, &Selection::all())?;
    b.generation += 1;
    b.journal = Some(r);
    commit(d, b, sector)
}

// The selected columns of the journalled stripe r, in its place.
fn place_stripe<D: Disks>(
    d: &mut D,
    b: &Superblock,
    r: u64,
    stripe: &[Sector],
    which: &Selection,
) -> Result<(), Gone>
    requires left { count (length b.now.members.list) (chosen which.now) + extra b.now.rebuild ≤ (D.shelf d.old).left }
    requires place { (64 + r < (D.shelf d.old).sectors) × (((D.shelf d.old).sectors ≤ 4294967296) × ((says b.now).journal ≡ Some r)) }
    requires sound { (c : Columns) × Sound (D.shelf d.old) (says b.now) c }
    requires marks { MarksTrue (D.shelf d.old) b.now.members }
    requires lent { length stripe.now ≡ length b.now.members.list }
    ensures deaths { Deaths (D.shelf d.old) (D.seen d.old) (D.shelf d.new) (D.seen d.new) }
    ensures spent { (D.shelf d.old).left ≤ (D.shelf d.new).left + (count (length b.now.members.list) (chosen which.now) + extra b.now.rebuild) }
    ensures how { MatchResult result (λ _. Placing (chosen which.now) (says b.now) r (held stripe.now) (D.shelf d.old) (D.shelf d.new)) (λ _. Unplaced (says b.now) (D.shelf d.old) (D.shelf d.new)) }
{
    let row = Row {
        stripe: r,
        sector: 64 + r,
    };
    store(d, b, row, stripe, which)
}

// A stripe that is to be written. It holds the disks from its beginning to its end.
pub struct StripeWrite<'a, D: Disks> {
    disks: &'a mut D,
    stripe: u64,
    touched: Selection,
}

// Let go, it has written nothing since: the disks are as they were.
impl<D: Disks> Drop for StripeWrite<'_, D> {
    fn drop(self)
        ensures { self.exit.0.now ≡ self.entry.disks.now }
    {
        let StripeWrite {
            disks: _,
            stripe: _,
            touched: _,
        } = self;
    }
}

// The stripe lasts in the journal. Only `journal` makes one, and it must be spent: it allows to store the stripe in its place.
pub struct Lasting {
    stripe: u64,
}

impl<'a, D: Disks> StripeWrite<'a, D> {
    // Stripe r, of which nothing is known yet; P and Q will be new.
    pub fn begin(d: &'a mut D, r: u64) -> StripeWrite<'a, D>
        ensures { (result.disks.ghost_name ≡ d.entry.ghost_name) × ((result.disks.now ≡ d.old) × ((result.stripe ≡ r) × (result.touched ≡ slice_set (slice_set (replicate 12 false) 0 true) 1 true))) }
    {
        StripeWrite {
            disks: d,
            stripe: r,
            touched: Selection::parity(),
        }
    }

    // Its columns as they are on the members, into `columns`; says which were missing.
    pub fn load(&mut self, members: &Members, columns: &mut [Sector]) -> Result<Missing, Gone>
        requires left { length members.now.list ≤ (D.shelf self.old.disks.now).left }
        requires size { (64 + self.old.stripe < (D.shelf self.old.disks.now).sectors) × ((D.shelf self.old.disks.now).sectors ≤ 4294967296) }
        requires serving { Serving (D.shelf self.old.disks.now) members.now }
        requires lent { length columns.old ≡ length members.now.list }
        ensures same { (self.new.disks.ghost_name ≡ self.old.disks.ghost_name) × ((self.new.stripe ≡ self.old.stripe) × (self.new.touched ≡ self.old.touched)) }
        ensures went { Went (length members.now.list) Nowhere (D.shelf self.old.disks.now) (D.seen self.old.disks.now) (D.shelf self.new.disks.now) (D.seen self.new.disks.now) }
        ensures how { MatchResult result (λ missing. Loaded missing members.now.list (64 + self.old.stripe) self.old.stripe columns.new (D.shelf self.old.disks.now) (D.shelf self.new.disks.now)) (λ _. (D.shelf self.new.disks.now).on ≡ false) }
    {
        let r = self.stripe;
        let row = Row {
            stripe: r,
            sector: 64 + r,
        };
        load(self.disks, members, row, columns)
    }

    // These words for data column j, and P and Q anew. The disks aren't asked.
    pub fn take(&mut self, j: usize, words: &Sector, columns: &mut [Sector])
        requires few { Few (length columns.old) }
        requires within { 2 + j < length columns.old }
        ensures same { (self.new.disks.ghost_name ≡ self.old.disks.ghost_name) × ((self.new.disks.now ≡ self.old.disks.now) × (self.new.stripe ≡ self.old.stripe)) }
        ensures touched { self.new.touched ≡ slice_set self.old.touched (2 + j) true }
        ensures put { Put (length columns.old) j words.now (held columns.old) (held columns.new) }
    {
        let _ = put(columns, j, words);
        self.touched.add(2 + j);
    }

    // It is ended: whole in the journal, and the superblock is the next one, which says so.
    pub fn journal(
        &mut self,
        b: &mut Superblock,
        columns: &[Sector],
        sector: &mut Sector,
    ) -> Result<Lasting, Gone>
        requires left { length b.old.members.list + extra b.old.rebuild + 5 ≤ (D.shelf self.old.disks.now).left }
        requires place { 64 + self.old.stripe < (D.shelf self.old.disks.now).sectors }
        requires ready { (c : Columns) × Ready (D.shelf self.old.disks.now) (says b.old) c }
        requires marks { MarksTrue (D.shelf self.old.disks.now) b.old.members }
        requires few { b.old.generation + 1 < 2 ^ 64 }
        requires lent { length columns.now ≡ length b.old.members.list }
        ensures same { (self.new.disks.ghost_name ≡ self.old.disks.ghost_name) × ((self.new.stripe ≡ self.old.stripe) × (self.new.touched ≡ self.old.touched)) }
        ensures deaths { Deaths (D.shelf self.old.disks.now) (D.seen self.old.disks.now) (D.shelf self.new.disks.now) (D.seen self.new.disks.now) }
        ensures spent { (D.shelf self.old.disks.now).left ≤ (D.shelf self.new.disks.now).left + (length b.old.members.list + extra b.old.rebuild + 5) }
        ensures how { MatchResult result (λ l. (l.stripe ≡ self.old.stripe) × (says b.new ≡ journalling (says b.old) self.old.stripe) × (b.new.members ≡ b.old.members) × Journalled (says b.old) self.old.stripe (held columns.now) (D.shelf self.old.disks.now) (D.shelf self.new.disks.now)) (λ _. Unjournalled (says b.old) self.old.stripe (held columns.now) (D.shelf self.old.disks.now) (D.shelf self.new.disks.now)) }
    {
        let r = self.stripe;
        journal_stripe(self.disks, b, r, columns, sector)?;
        Ok(Lasting { stripe: r })
    }

    // What is new of it, in its place.
    pub fn place(self, l: Lasting, b: &Superblock, columns: &[Sector]) -> Result<(), Gone>
        requires left { count (length b.now.members.list) (chosen self.touched) + extra b.now.rebuild ≤ (D.shelf self.disks.now).left }
        requires place { (64 + self.stripe < (D.shelf self.disks.now).sectors) × (((D.shelf self.disks.now).sectors ≤ 4294967296) × (((says b.now).journal ≡ Some self.stripe) × (l.stripe ≡ self.stripe))) }
        requires sound { (c : Columns) × Sound (D.shelf self.disks.now) (says b.now) c }
        requires marks { MarksTrue (D.shelf self.disks.now) b.now.members }
        requires lent { length columns.now ≡ length b.now.members.list }
        ensures deaths { Deaths (D.shelf self.entry.disks.now) (D.seen self.entry.disks.now) (D.shelf self.exit.0.now) (D.seen self.exit.0.now) }
        ensures spent { (D.shelf self.entry.disks.now).left ≤ (D.shelf self.exit.0.now).left + (count (length b.now.members.list) (chosen self.entry.touched) + extra b.now.rebuild) }
        ensures how { MatchResult result (λ _. Placing (chosen self.entry.touched) (says b.now) self.entry.stripe (held columns.now) (D.shelf self.entry.disks.now) (D.shelf self.exit.0.now)) (λ _. Unplaced (says b.now) (D.shelf self.entry.disks.now) (D.shelf self.exit.0.now)) }
    {
        let Lasting { stripe: _ } = l;
        let StripeWrite {
            disks,
            stripe,
            touched,
        } = self;
        place_stripe(disks, b, stripe, columns, &touched)
    }
}
