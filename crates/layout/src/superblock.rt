// The superblock as a value, and as the 64 words of a sector. It touches only the words that are lent.
ghost use Rattle.std.specs.Prelude.{◌≡◌, ℕ, ◌+◌, ◌<◌, ◌≤◌, List, [], ◌∷◌, ◌++◌, length, take, drop, replicate, ◌≢◌, slice_index};
ghost use Rattle.layout.specs.Members.{Roster};
ghost use Rattle.layout.specs.Super.{Super, blank, says, super_of, rebuild_of, journal_of, heading, words_of, rebuild_words, journal_word, Numbered, Proper, ReadAgain};
ghost use Rattle.layout.specs.declared.members.Marks.TheVariants.{Nobody};

use crate::members::Members;

// A disk that is being filled for a place: it has the stripes below `done`.
#[derive(Clone, Copy, PartialEq, Eq, Debug)]
pub struct Rebuild {
    pub place: usize,
    pub disk: u32,
    pub done: u64,
}

// Who the members are, which disk is being filled, and which stripe lies in the journal. The generation grows with each commit.
#[derive(Clone, Copy, PartialEq, Eq, Debug)]
pub struct Superblock {
    pub generation: u64,
    pub members: Members,
    pub rebuild: Option<Rebuild>,
    pub journal: Option<u64>,
}

// The first word of a superblock: "nultsjef" in ASCII.
const MARK: u64 = 0x6e75_6c74_736a_6566;

// What was written down is read again.
pub fn read_again() -> u8
    ensures { ReadAgain }
{
    0
}

// Which generation a sector says, whatever it holds.
#[tactic(auto, unfolding(crate::specs::Super::super_of))]
pub fn generation_of(words: &[u64; 64]) -> u64
    ensures { result ≡ (super_of words.now).generation }
{
    if words[0] == MARK { words[1] } else { 0 }
}

// The members at word 8 and on; all other words stay. By place: what a zip with `iter_mut` wrote is not known after it.
fn write_members(members: &Members, words: &mut [u64; 64])
    ensures { words.new ≡ take 8 words.old ++ (members.now.list ++ drop (8 + length members.now.list) words.old) }
{
    for (p, &disk) in members.disks().iter().enumerate() {
        words[8 + p] = u64::from(disk);
    }
}

// Whether a disk is being filled (1 or 0, for so it lies on the disks), for which place, which disk, and how far.
fn rebuild_words(rebuild: Option<Rebuild>) -> [u64; 4]
    ensures { result ≡ rebuild_words rebuild }
{
    match rebuild {
        None => [0; 4],
        Some(r) => [1, r.place as u64, u64::from(r.disk), r.done],
    }
}

// One more than the stripe in the journal, or nought, for so it lies on the disks.
fn journal_word(journal: Option<u64>) -> u64
    requires { Numbered journal }
    ensures { result ≡ journal_word journal }
{
    journal.map_or(0, |r| r + 1)
}

impl Superblock {
    // The superblock of a blank shelf.
    pub fn first() -> Superblock
        ensures { (says result ≡ blank) × (result.members.dead ≡ Nobody) }
    {
        Superblock {
            generation: 0,
            members: Members::first(),
            rebuild: None,
            journal: None,
        }
    }

    // The words 0 to 7, in a sector of noughts.
    fn write_heading(&self, words: &mut [u64; 64])
        requires blank { words.old ≡ replicate 64 0 }
        requires numbered { Numbered self.now.journal }
        ensures { words.new ≡ heading (says self.now) ++ replicate 56 0 }
    {
        let [kept, place, disk, done] = rebuild_words(self.rebuild);
        words[..8].copy_from_slice(&[
            MARK,
            self.generation,
            self.members.many() as u64,
            kept,
            place,
            disk,
            done,
            journal_word(self.journal),
        ]);
    }

    // The words that say it.
    pub fn encode(&self, words: &mut [u64; 64])
        requires { Numbered self.now.journal }
        ensures { words.new ≡ words_of (says self.now) }
    {
        *words = [0; 64];
        self.write_heading(words);
        write_members(&self.members, words);
    }

    // What the words of a sector say, if they are a superblock's of the store, or noughts.
    #[tactic(auto, unfolding(crate::specs::Super::super_of))]
    pub fn decode(words: &[u64; 64]) -> Superblock
        requires { Proper (super_of words.now) }
        ensures { (says result ≡ super_of words.now) × (result.members.dead ≡ Nobody) }
    {
        if words[0] != MARK {
            return Superblock::first();
        }
        let many = words[2] as usize;
        Superblock {
            generation: words[1],
            members: Members::read(&words[8..8 + many]),
            rebuild: rebuild_from(words),
            journal: journal_from(words),
        }
    }
}

// The disk that is being filled, as the words of a superblock have it.
fn rebuild_from(words: &[u64; 64]) -> Option<Rebuild>
    requires { (slice_index words.now 3 ≢ 0) → slice_index words.now 5 < 16 }
    ensures { result ≡ rebuild_of words.now }
{
    (words[3] != 0).then(|| Rebuild {
        place: words[4] as usize,
        disk: words[5] as u32,
        done: words[6],
    })
}

// The stripe in the journal, likewise.
fn journal_from(words: &[u64; 64]) -> Option<u64>
    ensures { result ≡ journal_of words.now }
{
    words[7].checked_sub(1)
}
