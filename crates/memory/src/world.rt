// The memory as the disks that a store is built on, and as the world around it.
//
// What goes on is done by the other modules on parts of the memory, which are lent to them here.
ghost use Rattle.std.specs.Prelude.{◌≡◌, ◌+◌, ◌<◌, ◌≤◌, false, T, length};
ghost use Rattle.memory.specs.Held.{shelf_of};
ghost use Rattle.memory.specs.Words.{seen_of};

use crate::Memory;
use crate::diary::What;
use crate::fate::Power;
use crate::script::Step;
use store::{Answer, Ask, Disks, Reply, World};

// So many words of the log are enough for whatever can come in a turn: one request, eight answers, sixteen deaths, a turn and a cut.
const ROOM: usize = 1024;

impl<'a> Disks for Memory<'a> {
    ghost shelf = { shelf_of };

    ghost seen = { λ m. seen_of m.diary };

    fn sectors(&self) -> u64 {
        self.platter.sectors()
    }

    fn read(&mut self, d: u32, s: u64, into: &mut [u64]) -> Answer {
        match self.plan.asked(&mut self.state, &mut self.diary) {
            Power::Gone | Power::Goes => Answer::Dark,
            Power::Stays => {
                if !self.state.disks[d as usize].alive {
                    return Answer::Dead;
                }
                let at = self.platter.place(d, s);
                into.copy_from_slice(self.platter.shown(at));
                Answer::Fine
            }
        }
    }

    // Where the power goes in the midst of it, what is being written may be left in the place of what was shown.
    fn write(&mut self, d: u32, s: u64, words: &[u64]) -> Answer {
        let mut sector = [0; 64];
        sector.copy_from_slice(words);
        let at = self.platter.place(d, s);
        match self.plan.asked(&mut self.state, &mut self.diary) {
            Power::Gone => Answer::Dark,
            Power::Goes => {
                self.platter.tear(at, sector);
                Answer::Dark
            }
            Power::Stays => {
                if !self.state.disks[d as usize].alive {
                    return Answer::Dead;
                }
                self.platter
                    .overwrite(at, sector, self.plan.lasts_at_once());
                Answer::Fine
            }
        }
    }

    // What is shown lasts once nothing is listed any more.
    fn sync(&mut self) -> Answer {
        match self.plan.asked(&mut self.state, &mut self.diary) {
            Power::Gone | Power::Goes => Answer::Dark,
            Power::Stays => {
                self.platter.set_listed(0);
                Answer::Fine
            }
        }
    }
}

impl<'a> World for Memory<'a> {
    fn more(&self) -> bool
        ensures { ((T result → self.now.diary.noted + 1024 ≤ length self.now.diary.words.now)) × ((result ≡ false → length self.now.diary.words.now < self.now.diary.noted + 1024)) }
    {
        self.diary.room() >= ROOM
    }

    fn allow(&mut self, asks: u64) {
        self.state.left = asks;
    }

    fn back(&mut self, room: &mut [u64]) {
        let seed = self.plan.seed;
        room.fill(seed);
        self.platter.choose(seed);
        self.diary.note_cut();
        self.plan.wake(&mut self.state, &mut self.diary);
        self.state.on = true;
    }

    fn next(&mut self, words: &mut [u64]) -> Option<(u32, Ask)> {
        match self.script.next_step()? {
            Step::Rest(_) => None,
            Step::Asks(tag, a, word) => {
                words.fill(word);
                Some((tag, a))
            }
            Step::Plans(n, fate) => {
                // Where the table is full nothing is planned.
                let _ = self.plan.schedule(n, fate);
                None
            }
        }
    }

    fn said(&mut self, tag: u32, a: Ask, words: &[u64], why: u32) -> bool {
        if why > 0 {
            return self.diary.note(What::Refused(why), tag, a, words).is_ok();
        }
        let noted = self.diary.note(What::Asked, tag, a, words);
        let taken = self.state.take_in(a);
        noted.is_ok() && taken.is_ok()
    }

    fn turned(&mut self) -> bool {
        self.diary.note_turn().is_ok()
    }

    fn told(&mut self, tag: u32, a: Ask, r: Reply, words: &[u64]) -> bool {
        let noted = self.diary.note(What::Told(r), tag, a, words);
        let let_out = self.state.let_out(a, r);
        noted.is_ok() && let_out.is_ok()
    }
}
