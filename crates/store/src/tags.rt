// What is asked under the tags 0 to 7, and whose turn it is. It touches no disks.
ghost use Rattle.std.specs.Prelude.{◌≡◌, ℕ, ◌+◌, ◌%◌, ◌<◌, length, replicate, Some, None, slice_set};

use crate::Ask;
use crate::refusal::Refusal;

// A tag under which something may be asked: one of eight.
#[derive(Clone, Copy, PartialEq, Eq, Debug)]
pub struct Tag {
    number: u32,
    ghost eight: { number < 8 },
}

// Numbers from 8 on are turned away.
impl TryFrom<u32> for Tag {
    type Error = Refusal;

    ghost use Rattle.store.specs.Tags.{TagOf};

    ghost try_from_gives = { TagOf };

    fn try_from(number: u32) -> Result<Tag, Refusal> {
        if number < 8 {
            Ok(Tag { number })
        } else {
            Err(Refusal::Tag)
        }
    }
}

impl From<Tag> for u32 {
    ghost from_gives = { λ t n. n ≡ t.number };

    fn from(t: Tag) -> u32 {
        t.number
    }
}

impl Tag {
    // Its place in a table of eight; there is no `From` to a `usize`.
    pub fn index(self) -> usize
        ensures { (result ≡ self.number) × (result < 8) }
    {
        self.number as usize
    }
}

// The table, and the tag from which on the next one is looked for.
#[derive(Drop)]
pub struct Tags {
    asked: [Option<Ask>; 8],
    cursor: Tag,
}

impl Tags {
    ghost use Rattle.store.specs.Tags.{at, is_open, Due};

    // Nothing is asked.
    pub fn new() -> Tags
        ensures { (result.asked ≡ replicate 8 None) × (result.cursor.number ≡ 0) }
    {
        Tags {
            asked: [None; 8],
            cursor: Tag { number: 0 },
        }
    }

    // Whether nothing is asked under tag t.
    pub fn is_open(&self, t: Tag) -> bool
        ensures { result ≡ is_open (at self.now.asked t.number) }
    {
        self.asked[t.index()].is_none()
    }

    // a is asked under tag t.
    pub fn note(&mut self, t: Tag, a: Ask)
        ensures { (self.new.asked ≡ slice_set self.old.asked t.number (Some a)) × ((self.new.cursor.number ≡ self.old.cursor.number) × (length self.old.asked ≡ 8)) }
    {
        self.asked[t.index()] = Some(a);
    }

    // What was asked under tag t is told; the next one is looked for behind it.
    pub fn close(&mut self, t: Tag)
        ensures { (self.new.asked ≡ slice_set self.old.asked t.number None) × ((self.new.cursor.number ≡ (t.number + 1) % 8) × (length self.old.asked ≡ 8)) }
    {
        self.asked[t.index()] = None;
        self.cursor = Tag {
            number: (t.number + 1) % 8,
        };
    }

    // The first tag from the cursor on, going round, under which something is asked.
    pub fn due(&self) -> Option<(Tag, Ask)>
        ensures { Due result self.now.asked self.now.cursor.number }
    {
        // It goes round, so the tags are counted: what is behind the cursor and then what is before it is no plainer as a chain.
        for k in 0..8u32 {
            let t = Tag {
                number: (self.cursor.number + k) % 8,
            };
            if let Some(a) = self.asked[t.index()] {
                return Some((t, a));
            }
        }
        None
    }
}
