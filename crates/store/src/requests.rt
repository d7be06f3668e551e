// What is asked of the store: why it is turned away, and how it is done. Reads and writes go to the disks through `sectors`.
ghost use Rattle.std.specs.Prelude.{◌≡◌, ℕ, ◌+◌, ◌-◌, ◌*◌, ◌^◌, ◌<◌, ◌≤◌, Bool, true, false, List, length, IfOk, Some, MatchResult};
ghost use Rattle.field.specs.Stripe.{column};
ghost use Rattle.store.specs.Durable.{Deaths};
ghost use Rattle.store.specs.Tags.{at, numbered, refusal_of};
ghost use Rattle.store.specs.Between.{ticks, Serving, Performed, Lost};

use crate::refusal::Refusal;
use crate::sectors::{read, write};
use crate::tags::Tag;
use crate::{Ask, Disks, Gone, Reply, Store};

impl Store {
    // How many sectors the store has; there is no `From` of a `usize`.
    pub fn size(&self) -> u64
        requires { (64 ≤ self.now.sectors) × (self.now.sectors ≤ 4294967296) }
        ensures { result ≡ (length self.now.superblock.members.list - 2) * (self.now.sectors - 64) }
    {
        let data = self.superblock.members.many() - 2;
        data as u64 * (self.sectors - 64)
    }

    // The tag under which it is taken: the tag is looked at first, then what is built, then the sector's number.
    pub fn admit(&self, tag: u32, a: Ask) -> Result<Tag, Refusal>
        requires { (64 ≤ self.now.sectors) × (self.now.sectors ≤ 4294967296) }
        ensures tag { IfOk result (λ t. t.number ≡ tag) }
        ensures why { numbered result ≡ refusal_of self.now.tags.asked ((length self.now.superblock.members.list - 2) * (self.now.sectors - 64)) tag a }
    {
        let t = Tag::try_from(tag)?;
        if !self.tags.is_open(t) {
            return Err(Refusal::Tag);
        }
        match a {
            Ask::Read(s) | Ask::Write(s) => {
                if s < self.size() {
                    Ok(t)
                } else {
                    Err(Refusal::Sector)
                }
            }
            Ask::Flush | Ask::Size => Ok(t),
            Ask::Add(_) | Ask::Replace(_, _) => Err(Refusal::Unbuilt),
        }
    }

    // What is asked under the tag, done. The first 512 words of the room are what was lent with the tags; behind them a stripe has room.
    pub fn perform<D: Disks>(
        &mut self,
        d: &mut D,
        room: &mut [u64],
        tag: Tag,
        a: Ask,
        words: &mut [u64],
    ) -> Result<Reply, Gone>
        requires soon { 256 ≤ (D.shelf d.old).left }
        requires lent { (length room.old ≡ 65536) × (length words.old ≡ 64) }
        requires held { Serving self.old room.old (D.shelf d.old) (D.seen d.old) }
        requires early { ticks (D.seen d.old) < 2 ^ 62 }
        requires taken { at self.old.tags.asked tag.number ≡ Some a }
        ensures deaths { Deaths (D.shelf d.old) (D.seen d.old) (D.shelf d.new) (D.seen d.new) }
        ensures same { (self.new.tags ≡ self.old.tags) × (((t : ℕ) → t < 8 → column t room.new ≡ column t room.old)) }
        ensures how { MatchResult result (λ reply. (v : Serving self.old room.old (D.shelf d.old) (D.seen d.old)) → Performed a reply tag.number words.new self.new v.h (D.shelf d.new) (D.seen d.new)) (λ _. Lost (D.shelf d.new) (D.seen d.new)) }
    {
        let end = 512 + 64 * self.superblock.members.many();
        match a {
            Ask::Read(s) => {
                let mut sector = [0; 64];
                let (columns, _) = room[512..end].as_chunks_mut::<64>();
                let b = &mut self.superblock;
                read(d, b, self.sectors, s, &mut sector, columns)?;
                words.copy_from_slice(&sector);
                Ok(Reply::Bytes)
            }
            Ask::Write(s) => {
                let at = 64 * tag.index();
                words.copy_from_slice(&room[at..at + 64]);
                let (sectors, _) = words.as_chunks::<64>();
                let (columns, _) = room[512..end].as_chunks_mut::<64>();
                let b = &mut self.superblock;
                write(d, b, self.sectors, s, &sectors[0], columns)?;
                Ok(Reply::Done)
            }
            Ask::Flush => Ok(Reply::Done),
            Ask::Size => Ok(Reply::Many(self.size())),
            Ask::Add(_) | Ask::Replace(_, _) => Ok(Reply::No(Refusal::Unbuilt.into())),
        }
    }
}
