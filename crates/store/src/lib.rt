// The shelf of disks that a store is built on, the world that uses it, and what is promised of the two.
//
// Here stand the traits that the store is proved over: `Disks`, all that the store may touch, and `World`, which adds what the
// store never sees (who asks, the power, how often the disks may be asked). Their contracts cite specs/: Event (what is seen),
// Shelf (the disks), Store (what whoever uses the store sees) and Promise (what is promised). The functions below them have no
// work to do: each one's contract is a theorem about those definitions.
#![tactic(auto)]

ghost use Rattle.std.specs.Prelude.{◌≡◌, ℕ, ◌+◌, ◌*◌, ◌^◌, ◌<◌, ◌≤◌, Bool, true, false, T, List, [], ◌∷◌, length, is_ok};
ghost use Rattle.store.specs.Event.{Event, Told, Turned, Cut};
ghost use Rattle.store.specs.Shelf.{Shelf, MayAsk, MayWrite, Reading, Writing, Syncing, Back, AtStart, allowed, takes_in, told_of};
ghost use Rattle.store.specs.Store.{Explained};
ghost use Rattle.store.specs.Between.{ticks, Serving, Recoverable, Lost, Opened, AfterTurn, Stopped, answered};
ghost use Rattle.store.specs.Examples.{FirstAnswers};
ghost use Rattle.store.specs.Listed.{Listed};
ghost use Rattle.store.specs.Recovers.{Begins};
ghost use Rattle.store.specs.Promise.{can, said, OnePlace, NeverSmaller, NothingMadeUp, CoreBuilt};

mod answers;
mod commit;
mod journal;
mod recovery;
mod refusal;
mod requests;
mod sectors;
mod selection;
mod stripe;
mod tags;
mod write;

use layout::Superblock;
use recovery::come_up;
pub use refusal::Refusal;
pub use tags::Tag;
use tags::Tags;

// The types and traits below, `serve` and `years` are the text by which the promise is given, and stay to the letter: why something is
// refused is a number there, what is noted answers by a bool, `serve` and `years` count their turns and lives by hand and lend slices, whose
// lengths each contract names.

// What a disk answers. Dead: it has died, for ever. Dark: the power has gone, and every disk answers so from then on.
#[derive(Clone, Copy)]
pub enum Answer {
    Fine,
    Dead,
    Dark,
}

// What may be asked of the store: sectors and disks go by their numbers.
#[derive(Clone, Copy)]
pub enum Ask {
    Read(u64),
    Write(u64),
    Flush,
    Size,
    Add(u32),
    Replace(u32, u32),
}

// What is told: it is done; a read's words stand in what is lent; so many sectors; it cannot be, and why.
#[derive(Clone, Copy)]
pub enum Reply {
    Done,
    Bytes,
    Many(u64),
    No(u32),
}

// The disks, 0 to 15. Whenever anything is asked of them some may die. `shelf` is what they hold, `seen` all that has happened,
// the latest first.
pub trait Disks {
    ghost shelf: { Self → Shelf };

    ghost seen: { Self → List Event };

    // how many sectors each disk has
    fn sectors(&self) -> u64
        ensures { result ≡ (shelf self.now).sectors };

    fn read(&mut self, d: u32, s: u64, into: &mut [u64]) -> Answer
        requires { (MayAsk (shelf self.old) d s) × (length into.old ≡ 64) }
        ensures { Reading (shelf self.old) (seen self.old) d s into.new result (shelf self.new) (seen self.new) };

    fn write(&mut self, d: u32, s: u64, words: &[u64]) -> Answer
        requires { (MayWrite (shelf self.old) d s) × (length words.now ≡ 64) }
        ensures { Writing (shelf self.old) (seen self.old) d s words.now result (shelf self.new) (seen self.new) };

    fn sync(&mut self) -> Answer
        requires { 0 < (shelf self.old).left }
        ensures { Syncing (shelf self.old) (seen self.old) result (shelf self.new) (seen self.new) };
}

// What the store does not see: who asks, when the power goes and comes, and how often the disks may be asked.
pub trait World: Disks {
    // whether there is room to note another turn
    fn more(&self) -> bool;
    // so often may the disks be asked from now on
    fn allow(&mut self, asks: u64)
        ensures { (Self.shelf self.new ≡ allowed asks (Self.shelf self.old)) × (Self.seen self.new ≡ Self.seen self.old) };
    // The power comes back. Nothing is known of what memory holds.
    fn back(&mut self, room: &mut [u64])
        requires { (Self.shelf self.old).on ≡ false }
        ensures { Back (Self.shelf self.old) (Cut ∷ Self.seen self.old) (Self.shelf self.new) (Self.seen self.new) };
    // what is asked next, if anything, under a tag; what is to be written stands in `words`
    fn next(&mut self, words: &mut [u64]) -> Option<(u32, Ask)>
        ensures { (Self.shelf self.new ≡ Self.shelf self.old) × (Self.seen self.new ≡ Self.seen self.old) };
    // Something was asked, or refused (`why` is not 0); a turn has passed; something is told. What these require is the promise:
    // all that was seen so far, with this, can be explained. One that notes it in memory may answer false for want of room:
    // then all is over.
    fn said(&mut self, tag: u32, a: Ask, words: &[u64], why: u32) -> bool
        requires { (Explained can (Self.shelf self.old).sectors (said why tag a words.now ∷ Self.seen self.old)) × (length words.now ≡ 64) }
        ensures { ((T result → Self.seen self.new ≡ said why tag a words.now ∷ Self.seen self.old)) × (((T result → why ≡ 0 → Self.shelf self.new ≡ takes_in a (Self.shelf self.old))) × ((T result → 0 < why → Self.shelf self.new ≡ Self.shelf self.old))) };

    fn turned(&mut self) -> bool
        requires { Explained can (Self.shelf self.old).sectors (Turned ∷ Self.seen self.old) }
        ensures { ((T result → Self.seen self.new ≡ Turned ∷ Self.seen self.old)) × (Self.shelf self.new ≡ Self.shelf self.old) };

    fn told(&mut self, tag: u32, a: Ask, r: Reply, words: &[u64]) -> bool
        requires { (Explained can (Self.shelf self.old).sectors (Told tag a r words.now ∷ Self.seen self.old)) × (length words.now ≡ 64) }
        ensures { ((T result → Self.seen self.new ≡ Told tag a r words.now ∷ Self.seen self.old)) × ((T result → Self.shelf self.new ≡ told_of a r (Self.shelf self.old))) };
}

// The power has gone: what a function over the disks ends with when one answers Dark.
#[derive(Clone, Copy)]
pub struct Gone;

// What a turn tells: the request `ask` under `tag` has ended with `reply`.
#[derive(Clone, Copy)]
pub struct Ended {
    pub tag: u32,
    pub ask: Ask,
    pub reply: Reply,
}

// What the store keeps in a value, beside the room that it is lent: the size of the disks, the superblock in force, and what is asked.
#[derive(Drop)]
pub struct Store {
    sectors: u64,
    superblock: Superblock,
    tags: Tags,
}

// The store comes up: what was kept is found, and nothing is asked yet. It may be cut here too, as often as it likes.
pub fn open<D: Disks>(d: &mut D, room: &mut [u64]) -> Result<Store, Gone>
    requires soon { 65536 ≤ (D.shelf d.old).left }
    requires lent { length room.old ≡ 65536 }
    requires back { Recoverable (D.shelf d.old) (D.seen d.old) }
    ensures only { is_ok result ≡ false → (D.shelf d.new).on ≡ false }
    ensures opened { Opened result room.new (D.shelf d.new) (D.seen d.new) }
    ensures ticked { ticks (D.seen d.new) ≡ ticks (D.seen d.old) }
    ensures spent { (D.shelf d.old).left ≤ (D.shelf d.new).left + 46 }
{
    let mut best = [0; 64];
    let (sectors, _) = room.as_chunks_mut::<64>();
    let superblock = come_up(d, &mut best, &mut sectors[0])?;
    Ok(Store {
        sectors: d.sectors(),
        superblock,
        tags: Tags::new(),
    })
}

impl Store {
    // Something is asked under a tag: 0, or why it is turned away. The disks aren't asked, and what is turned away changes nothing.
    pub fn ask(&mut self, room: &mut [u64], tag: u32, a: Ask, words: &[u64]) -> u32
        requires lent { (length room.old ≡ 65536) × (length words.now ≡ 64) }
        requires held { (x : Shelf) × ((es : List Event) × Serving self.old room.old x es) }
        ensures goes { (x : Shelf) (es : List Event) → Serving self.old room.old x es → Serving self.new room.new (answered result a x) (said result tag a words.now ∷ es) }
        ensures kept { ((0 < result → self.new ≡ self.old)) × ((0 < result → room.new ≡ room.old)) }
    {
        match self.admit(tag, a) {
            Err(why) => why.into(),
            Ok(t) => {
                let at = 64 * t.index();
                room[at..at + 64].copy_from_slice(words);
                self.tags.note(t, a);
                0
            }
        }
    }

    // A turn, in which one that waits is done and told; what a read has read stands in `words`.
    pub fn turn<D: Disks>(
        &mut self,
        d: &mut D,
        room: &mut [u64],
        words: &mut [u64],
    ) -> Result<Option<Ended>, Gone>
        requires soon { 256 ≤ (D.shelf d.old).left }
        requires lent { (length room.old ≡ 65536) × (length words.old ≡ 64) }
        requires held { Serving self.old room.old (D.shelf d.old) (D.seen d.old) }
        requires early { ticks (D.seen d.old) < 2 ^ 62 }
        ensures only { is_ok result ≡ false → (D.shelf d.new).on ≡ false }
        ensures after { AfterTurn result words.new self.new room.new (D.shelf d.new) (D.seen d.new) }
        ensures ticked { ticks (D.seen d.new) ≡ ticks (D.seen d.old) }
    {
        let Some((tag, ask)) = self.tags.due() else {
            return Ok(None);
        };
        let reply = self.perform(d, room, tag, ask, words)?;
        self.tags.close(tag);
        Ok(Some(Ended {
            tag: tag.into(),
            ask,
            reply,
        }))
    }
}

// What is large is in the room.
pub fn store_is_small() -> bool
    ensures { T result }
{
    std::mem::size_of::<Store>() <= 4096
}

// Why serving ends: the power has gone, or all is over.
pub enum Stop {
    Dark,
    Over,
}

// As long as the power stays, and turns are left.
pub fn serve<W: Disks + World>(
    w: &mut W,
    s: &mut Store,
    room: &mut [u64],
    words: &mut [u64],
    turns: u64,
) -> Stop
    requires lent { length words.old ≡ 64 }
    requires roomy { length room.old ≡ 65536 }
    requires held { Serving s.old room.old (W.shelf w.old) (W.seen w.old) }
    requires early { ticks (W.seen w.old) + turns < 2 ^ 62 }
    ensures stops { Stopped result (W.shelf w.new) (W.seen w.new) }
    ensures ticked { result ≡ Stop.Dark → ticks (W.seen w.new) ≤ ticks (W.seen w.old) + turns }
{
    let mut t: u64 = 0;
    while t < turns && w.more() {
        t += 1;
        if let Some((tag, a)) = w.next(words) {
            let why = s.ask(room, tag, a, words);
            if !w.said(tag, a, words, why) {
                return Stop::Over;
            }
        }
        w.allow(256);
        match s.turn(w, room, words) {
            Err(Gone) => {
                return Stop::Dark;
            }
            Ok(e) => {
                if !w.turned() {
                    return Stop::Over;
                }
                if let Some(Ended { tag, ask, reply }) = e {
                    if !w.told(tag, ask, reply, words) {
                        return Stop::Over;
                    }
                }
            }
        }
    }
    Stop::Over
}

// THE MAIN PROMISE. Whichever two disks die, whatever is asked, and wherever the power goes.
pub fn years<W: Disks + World>(
    w: &mut W,
    room: &mut [u64],
    words: &mut [u64],
    lives: u64,
    turns: u64,
)
    requires starts { AtStart (W.shelf w.old) }
    requires unseen { W.seen w.old ≡ [] }
    requires lent { (length room.old ≡ 65536) × (length words.old ≡ 64) }
    requires few { (lives < 1048576) × (turns < 1099511627776) }
{
    let mut n: u64 = 0;
    while n < lives && w.more() {
        n += 1;
        w.allow(65536);
        if let Ok(mut s) = open(w, room) {
            match serve(w, &mut s, room, words, turns) {
                Stop::Dark => {}
                Stop::Over => {
                    return;
                }
            }
        }
        w.back(room);
    }
}

// Reading, writing, flushing and asking the size are never taken out of what is built.
pub fn core_built() -> u8
    ensures { CoreBuilt }
{
    0
}

// No disk is ever in two places, and the store has 4 to 12 disks.
pub fn one_place() -> u8
    ensures { OnePlace }
{
    0
}

// Nothing that is seen makes the store smaller.
pub fn never_smaller() -> u8
    ensures { NeverSmaller }
{
    0
}

// Whatever a sector may hold is noughts, or was asked to be written there.
pub fn nothing_made_up() -> u8
    ensures { NothingMadeUp }
{
    0
}

// A blank shelf is a store's: nothing needs to be done to it before it comes up for the first time.
pub fn blank_shelf() -> u8
    ensures { Begins }
{
    0
}

// What the layout says of the members as a list is what is seen of them.
pub fn members_listed() -> u8
    ensures { Listed }
{
    0
}

// What a fresh store on small disks answers: its size, its first sector, and what it takes and turns away.
pub fn first_answers() -> u8
    ensures { FirstAnswers }
{
    0
}
