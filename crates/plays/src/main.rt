// Plays the store on disks in memory: the power goes at every single ask in turn, again while it comes up, and disks die before,
// during and after. All that is told is held against a plain model.
#![tactic(auto)]

mod model;
mod tape;

ghost use Rattle.std.specs.Prelude.{◌≡◌, ◌++◌, Some, codes, decimal};
ghost use Rattle.memory.specs.Held.{shelf_of};
ghost use Rattle.memory.specs.Words.{seen_of};

use memory::{BLANK, Memory};
use model::Model;
use std::{fmt, io};
use store::years;
use tape::{Event, events};

const CELLS: usize = 2048;

// The words of the log, of which 1024 stay free.
const LOG: usize = 2048;

// The room that the store is lent.
const ROOM: usize = 65536;

// One play: at which asks the power goes, by which seed, and at which asks two disks die, if they do.
#[derive(Clone, Copy, PartialEq, Eq, Debug)]
pub struct Play {
    at: u64,
    again: u64,
    seed: u64,
    disk: u32,
    first: Option<u64>,
    second: Option<u64>,
}

// How many plays there were, and how many cuts and deaths in them; how many things were told, and how many plays went wrong.
#[derive(Clone, Copy, PartialEq, Eq, Debug, Default)]
pub struct Tally {
    plays: u64,
    cuts: u64,
    deaths: u64,
    told: u64,
    wrong: u64,
}

impl fmt::Display for Tally {
    ghost output = { λ t. Some (decimal t.plays ++ (codes " plays, " ++ (decimal t.cuts ++ (codes " cuts, " ++ (decimal t.deaths ++ (codes " deaths, " ++ (decimal t.told ++ (codes " told, " ++ (decimal t.wrong ++ codes " wrong"))))))))) };

    fn fmt<W: fmt::Write>(&self, f: &mut fmt::Formatter<W>) -> fmt::Result {
        write!(
            f,
            "{} plays, {} cuts, {} deaths, {} told, {} wrong",
            self.plays, self.cuts, self.deaths, self.told, self.wrong
        )
    }
}

// Ten writes, two of them over earlier ones, then all is read, twice.
const SCRIPT: [u64; 104] = [
    2, 0, 0, 1, 2, 1, 64, 2, 2, 2, 1, 3, 2, 3, 63, 4, 2, 4, 127, 5, 2, 5, 2, 6, 2, 6, 100, 7, 2, 7,
    0, 8, 2, 0, 64, 9, 2, 1, 1, 10, 1, 0, 0, 0, 1, 1, 64, 0, 1, 2, 1, 0, 1, 3, 65, 0, 1, 4, 63, 0,
    1, 5, 127, 0, 1, 6, 2, 0, 1, 7, 100, 0, 1, 0, 0, 0, 1, 1, 64, 0, 1, 2, 1, 0, 1, 3, 65, 0, 1, 4,
    63, 0, 1, 5, 127, 0, 1, 6, 2, 0, 1, 7, 100, 0,
];

// A disk is to die at this ask, if at any.
fn plan_death(m: &mut Memory, disk: u32, ask: Option<u64>)
    ensures { (shelf_of m.new ≡ shelf_of m.old) × (seen_of m.new.diary ≡ seen_of m.old.diary) }
{
    if let Some(n) = ask {
        let _ = m.plan_death(disk, n);
    }
}

// Plays it, and leaves what was seen in the log.
fn play_out(p: Play, log: &mut [u64], room: &mut [u64; ROOM]) {
    let mut cells = [BLANK; CELLS];
    let mut words = [0; 64];
    let mut m = Memory::new(&mut cells, log, &SCRIPT);
    let _ = m.plan_cut(p.at, p.seed);
    let _ = m.plan_cut(p.again, p.seed);
    plan_death(&mut m, p.disk, p.first);
    plan_death(&mut m, p.disk ^ 1, p.second);
    years(&mut m, room, &mut words, 5, 60);
}

// So many disks die about the ask `at`: one shortly before it or at once, and one later.
fn made(at: u64, seed: u64, disk: u32, dead: u64) -> Play {
    Play {
        at,
        again: at.saturating_add(1 + (at ^ seed) % 50),
        seed: at ^ seed,
        disk,
        first: (dead > 0).then_some(at.saturating_sub(seed % 9)),
        second: (dead > 1).then_some(at.saturating_add(seed % 31)),
    }
}

impl Tally {
    // Holds what was seen against the model.
    fn judge(&mut self, seen: &[Event]) -> bool {
        let mut model = Model::blank();
        let mut good = true;
        for event in seen {
            match event {
                Event::Cut => self.cuts = self.cuts.saturating_add(1),
                Event::Died => self.deaths = self.deaths.saturating_add(1),
                Event::Told(_) => self.told = self.told.saturating_add(1),
                _ => {}
            }
            good &= model.sees(*event);
        }
        good
    }

    // Plays one and counts it.
    fn count(&mut self, p: Play, room: &mut [u64; ROOM]) {
        let mut log = [0; LOG];
        play_out(p, &mut log, room);
        self.plays = self.plays.saturating_add(1);
        if !events(&log).is_some_and(|seen| self.judge(seen.as_slice())) {
            self.wrong = self.wrong.saturating_add(1);
        }
    }

    // A cut at every ask from the first on, with several seeds and one choice of deaths.
    fn round(&mut self, disk: u32, dead: u64, room: &mut [u64; ROOM]) {
        for seed in [17, 1000020, 2000023] {
            for at in 1..241 {
                self.count(made(at, seed, disk, dead), room);
            }
        }
    }
}

// All of them: none dies, one, or two, of each pair.
pub fn rounds(room: &mut [u64; ROOM]) -> Tally {
    let mut tally = Tally::default();
    tally.round(0, 0, room);
    for disk in 0..4 {
        tally.round(disk, 1, room);
        tally.round(disk, 2, room);
    }
    tally
}

fn main(rt: HostRuntime) -> io::Result<()> {
    let mut room = [0; ROOM];
    println!(rt; "{}", rounds(&mut room))
}
