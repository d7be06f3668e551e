// The log: what was seen, in words.
//
// Nothing is touched here but the words that are lent. specs/Words says what they mean: an event is a few words, the last of which is
// its head. Turns in a row are one word. What was asked, refused or told takes three or four words if its 64 words are all one, and
// 63 more if they aren't. The last word of the log is kept for a cut.
ghost use Rattle.std.specs.Prelude.{◌≡◌, ℕ, ◌+◌, ◌-◌, ◌/◌, ◌%◌, ◌^◌, ◌<◌, ◌≤◌, List, [], ◌∷◌, length, replicate, OnOk, OnErr, IfSome};
ghost use Rattle.store.specs.Event.{Event, Turned, Died, Cut};
ghost use Rattle.memory.specs.Held.{full};
ghost use Rattle.memory.specs.Words.{ask_of, reply_of, events_of, noted_in, seen_of, event_of, words as await, Head, Grown};

use crate::refusals::LogFull;
use store::{Ask, Reply};

// What was seen of a request: it was asked; it was refused, and why; it was told. `Reply` of the store can only be copied, so this can too.
#[derive(Clone, Copy)]
pub enum What {
    Asked,
    Refused(u32),
    Told(Reply),
}

// What was asked, or told, as two numbers: others read them in the log, so each kind has its own.
#[derive(Clone, Copy, PartialEq, Eq, Debug)]
pub struct Coded {
    kind: u64,
    number: u64,
}

// The log, of which so many words are taken. It is lent, so that no heap is needed.
#[derive(Drop)]
pub struct Diary<'a> {
    words: &'a mut [u64],
    noted: usize,
}

// The most words that an event takes, with one for a cut.
const WIDEST: usize = 68;

// Two numbers of 32 bits in one.
fn pair(d: u32, e: u32) -> u64
    ensures first { result % 2 ^ 32 ≡ d }
    ensures second { result / 2 ^ 32 ≡ e }
{
    u64::from(d) + u64::from(e) * 4294967296
}

impl From<Ask> for Coded {
    ghost from_gives = { λ a c. (ask_of c.kind c.number ≡ a) × (c.kind < 8) };

    #[tactic(auto, unfolding(crate::specs::Words::ask_of))]
    fn from(a: Ask) -> Coded {
        let (kind, number) = match a {
            Ask::Read(s) => (0, s),
            Ask::Write(s) => (1, s),
            Ask::Flush => (2, 0),
            Ask::Size => (3, 0),
            Ask::Add(e) => (4, u64::from(e)),
            Ask::Replace(d, e) => (5, pair(d, e)),
        };
        Coded { kind, number }
    }
}

impl From<Reply> for Coded {
    ghost from_gives = { λ r c. (reply_of c.kind c.number ≡ r) × (c.kind < 4) };

    #[tactic(auto, unfolding(crate::specs::Words::reply_of))]
    fn from(r: Reply) -> Coded {
        let (kind, number) = match r {
            Reply::Done => (0, 0),
            Reply::Bytes => (1, 0),
            Reply::Many(n) => (2, n),
            Reply::No(k) => (3, u64::from(k)),
        };
        Coded { kind, number }
    }
}

// The word that all 64 are, if they are all one.
fn uniform(words: &[u64]) -> Option<u64>
    requires { length words.now ≡ 64 }
    ensures { IfSome result (λ v. words.now ≡ replicate 64 v) }
{
    let first = words[0];
    if words.iter().all(|&word| word == first) {
        Some(first)
    } else {
        None
    }
}

impl<'a> Diary<'a> {
    // Nothing was seen yet.
    #[tactic(auto, unfolding(crate::specs::Words::events_of, crate::specs::Words::latest))]
    pub fn new(words: &'a mut [u64]) -> Diary<'a>
        ensures empty { result.noted ≡ 0 }
        ensures unseen { seen_of result ≡ [] }
    {
        Diary { words, noted: 0 }
    }
}

impl Diary<'_> {
    // Nothing was seen, as `new` has it.
    #[tactic(auto, unfolding(crate::specs::Words::events_of, crate::specs::Words::latest))]
    pub fn clear(&mut self)
        ensures empty { self.new.noted ≡ 0 }
        ensures unseen { seen_of self.new ≡ [] }
    {
        self.noted = 0;
    }

    // How many words are free.
    pub fn room(&self) -> usize
        ensures { result ≡ length self.now.words.now - self.now.noted }
    {
        self.words.len().saturating_sub(self.noted)
    }

    // Is there no room to note a cut?
    pub fn is_full(&self) -> bool
        ensures { result ≡ full self.now }
    {
        self.words.len() <= self.noted
    }

    // One word more.
    #[tactic(auto, using(crate::proofs::Logged::latest_more))]
    fn push(&mut self, word: u64)
        requires { self.old.noted < length self.old.words.now }
        ensures words { noted_in self.new ≡ word ∷ noted_in self.old }
        ensures many { self.new.noted ≡ self.old.noted + 1 }
        ensures grown { Grown self.old 1 self.new }
    {
        self.words[self.noted] = word;
        self.noted += 1;
    }

    // The 64 words: one of them if they are all one. Answers 0 then, and else 1, for so it stands in the head of the event.
    fn push_words(&mut self, words: &[u64]) -> u64
        requires { (self.old.noted + 64 ≤ length self.old.words.now) × (length words.now ≡ 64) }
        ensures read { (f : List ℕ → Event) → events_of (await result f) (noted_in self.new) ≡ f words.now ∷ seen_of self.old }
        ensures small { result < 2 }
        ensures grown { Grown self.old 64 self.new }
    {
        match uniform(words) {
            Some(word) => {
                self.push(word);
                0
            }
            None => {
                self.words[self.noted..self.noted + 64].copy_from_slice(words);
                self.noted += 64;
                1
            }
        }
    }

    // The head of something asked, refused or told, and the number before it.
    fn push_head(&mut self, what: What, tag: u32, body: u64)
        requires { (self.old.noted + 2 ≤ length self.old.words.now) × (body < 16) }
        ensures read { (x : ℕ) (l : List ℕ) → noted_in self.old ≡ x ∷ l → seen_of self.new ≡ events_of (await (body / 8) (event_of what tag (ask_of (body % 8) x))) l }
        ensures grown { Grown self.old 2 self.new }
    {
        let tag = u64::from(tag);
        match what {
            What::Asked => self.push(3 + 8 * (body + 16 * tag)),
            What::Refused(why) => {
                self.push(u64::from(why));
                self.push(4 + 8 * (body + 16 * tag));
            }
            What::Told(r) => {
                let reply = Coded::from(r);
                self.push(reply.number);
                self.push(5 + 8 * (body + 16 * (reply.kind + 4 * tag)));
            }
        }
    }

    // Something was asked, refused or told: one event more.
    fn push_event(&mut self, what: What, tag: u32, a: Ask, words: &[u64])
        requires { (self.old.noted + 68 ≤ length self.old.words.now) × (length words.now ≡ 64) }
        ensures seen { seen_of self.new ≡ event_of what tag a words.now ∷ seen_of self.old }
        ensures grown { Grown self.old 67 self.new }
    {
        let ask = Coded::from(a);
        let width = self.push_words(words);
        self.push(ask.number);
        self.push_head(what, tag, ask.kind + 8 * width);
    }

    // Something was asked, refused or told, if there is room to note it.
    pub fn note(&mut self, what: What, tag: u32, a: Ask, words: &[u64]) -> Result<(), LogFull>
        requires { length words.now ≡ 64 }
        ensures seen { OnOk result (seen_of self.new ≡ event_of what tag a words.now ∷ seen_of self.old) }
        ensures unseen { OnErr result (self.new ≡ self.old) }
        ensures same { full self.new ≡ full self.old }
        ensures err { OnErr result (length self.old.words.now < self.old.noted + 68) }
    {
        if self.room() < WIDEST {
            return Err(LogFull);
        }
        self.push_event(what, tag, a, words);
        Ok(())
    }

    // An event of one word, if there is room to note it.
    fn note_word(&mut self, word: u64) -> Result<(), LogFull>
        ensures seen { OnOk result (seen_of self.new ≡ events_of Head (word ∷ noted_in self.old)) }
        ensures unseen { OnErr result (self.new ≡ self.old) }
        ensures same { full self.new ≡ full self.old }
        ensures err { OnErr result (length self.old.words.now ≤ self.old.noted + 1) }
    {
        if self.room() < 2 {
            return Err(LogFull);
        }
        self.push(word);
        Ok(())
    }

    // A disk has died, if there is room to note it.
    pub fn note_death(&mut self, d: u32) -> Result<(), LogFull>
        ensures seen { OnOk result (seen_of self.new ≡ Died d ∷ seen_of self.old) }
        ensures unseen { OnErr result (self.new ≡ self.old) }
        ensures same { full self.new ≡ full self.old }
        ensures err { OnErr result (length self.old.words.now ≤ self.old.noted + 1) }
    {
        self.note_word(1 + 8 * u64::from(d))
    }

    // One more turn, in one word with the turns right before it, if there is room to note it.
    pub fn note_turn(&mut self) -> Result<(), LogFull>
        ensures seen { OnOk result (seen_of self.new ≡ Turned ∷ seen_of self.old) }
        ensures unseen { OnErr result (self.new ≡ self.old) }
        ensures same { full self.new ≡ full self.old }
    {
        let noted = self.noted;
        if noted > 0 && noted <= self.words.len() {
            let head = self.words[noted - 1];
            if head % 8 == 0 && head < u64::MAX - 8 {
                self.words[noted - 1] = head + 8;
                return Ok(());
            }
        }
        self.note_word(8)
    }

    // The power has gone.
    #[tactic(auto, using(crate::proofs::Logged::cut_head))]
    pub fn note_cut(&mut self)
        requires { self.old.noted < length self.old.words.now }
        ensures seen { seen_of self.new ≡ Cut ∷ seen_of self.old }
        ensures many { self.new.noted ≡ self.old.noted + 1 }
        ensures grown { Grown self.old 1 self.new }
    {
        self.push(2);
    }
}
