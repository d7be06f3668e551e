// Which disks are in use.
//
// Nothing is touched here but that part of the state: a disk that is asked for is in use from then on, and one that was told to be out
// is no more.
ghost use Rattle.std.specs.Prelude.{◌≡◌, ◌<◌, MatchOption, MatchResult, OnOk, OnErr};
ghost use Rattle.store.specs.Shelf.{Shelf, takes_in, told_of, in_use, out};
ghost use Rattle.memory.specs.Held.{shelf_with};
ghost use Rattle.memory.specs.Uses.{into};
ghost use Rattle.memory.specs.declared.diary.Diary.{Diary};
ghost use Rattle.memory.specs.declared.platter.Platter.{Platter};

use crate::refusals::NoSuchDisk;
use crate::{Disk, State};
use store::{Ask, Reply};

// The disk that is asked to be taken in.
fn asked_in(a: Ask) -> Option<u32>
    ensures { (x : Shelf) → MatchOption result (takes_in a x ≡ x) (λ e. takes_in a x ≡ into e x) }
{
    match a {
        Ask::Add(e) | Ask::Replace(_, e) => Some(e),
        _ => None,
    }
}

// The disk that is out of use by what was told: the old one of a replacement, or the new one of a change that can't be.
fn told_out(a: Ask, r: Reply) -> Option<u32>
    ensures { (x : Shelf) → MatchOption result (told_of a r x ≡ x) (λ d. told_of a r x ≡ out d x) }
{
    match (a, r) {
        (Ask::Add(e), Reply::No(_)) => Some(e),
        (Ask::Replace(_, e), Reply::No(_)) => Some(e),
        (Ask::Replace(d, _), Reply::Done) => Some(d),
        _ => None,
    }
}

// The place of a disk among the sixteen.
pub fn place(disk: u32) -> Result<usize, NoSuchDisk>
    ensures { MatchResult result (λ k. (k ≡ disk) × (k < 16)) (λ _. 15 < disk) }
{
    if disk > 15 {
        Err(NoSuchDisk)
    } else {
        Ok(disk as usize)
    }
}

impl State {
    // A disk is in use from now on.
    fn enter(&mut self, e: u32) -> Result<(), NoSuchDisk>
        ensures shelf { OnOk result ((p : Platter) (d : Diary) → shelf_with p d self.new ≡ into e (shelf_with p d self.old)) }
        ensures err { OnErr result (self.new ≡ self.old) }
    {
        self.disks[place(e)?].in_use = true;
        Ok(())
    }

    // A disk is in use no more.
    fn leave(&mut self, e: u32) -> Result<(), NoSuchDisk>
        ensures shelf { OnOk result ((p : Platter) (d : Diary) → shelf_with p d self.new ≡ out e (shelf_with p d self.old)) }
        ensures err { OnErr result (self.new ≡ self.old) }
    {
        let k = place(e)?;
        self.disks[k] = Disk {
            in_use: false,
            lost: false,
            ..self.disks[k]
        };
        Ok(())
    }

    // A disk that is asked to be taken in counts as in use.
    pub fn take_in(&mut self, a: Ask) -> Result<(), NoSuchDisk>
        ensures shelf { OnOk result ((p : Platter) (d : Diary) → shelf_with p d self.new ≡ takes_in a (shelf_with p d self.old)) }
        ensures err { OnErr result (self.new ≡ self.old) }
    {
        match asked_in(a) {
            Some(e) => self.enter(e),
            None => Ok(()),
        }
    }

    // What was told may take a disk out of use.
    pub fn let_out(&mut self, a: Ask, r: Reply) -> Result<(), NoSuchDisk>
        ensures shelf { OnOk result ((p : Platter) (d : Diary) → shelf_with p d self.new ≡ told_of a r (shelf_with p d self.old)) }
        ensures err { OnErr result (self.new ≡ self.old) }
    {
        match told_out(a, r) {
            Some(e) => self.leave(e),
            None => Ok(()),
        }
    }
}
