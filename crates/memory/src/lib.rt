// Sixteen disks in lent memory, which die and are cut.
//
// `Memory` is a shelf of disks and the world around it, as the traits `Disks` and `World` of the crate `store` want them. All that is
// large is lent by the caller: the cells of the disks, the log of what was seen, and the script of what is to be asked. The modules:
//
// - `platter`: the cells. What is shown of each sector, what was there at the last sync, and what a cut leaves.
// - `diary`: the log. What was seen, in words.
// - `fate`: which disks are alive, when disks die, when the power goes.
// - `usage`: which disks are in use.
// - `script`: what is asked next.
// - `refusals`: why something could not be done.
// - `world`: the two traits.
//
// An `as` is between `usize` and another size, for which there is no `From`.
#![tactic(auto)]

mod diary;
mod fate;
mod platter;
mod refusals;
mod script;
mod usage;
mod world;

ghost use Rattle.std.specs.Prelude.{◌≡◌, ◌+◌, ◌<◌, ◌≤◌, [], length, OnOk, OnErr};
ghost use Rattle.store.specs.Shelf.{AtStart};
ghost use Rattle.memory.specs.Held.{shelf_of, start, many};
ghost use Rattle.memory.specs.Plans.{Planned};
ghost use Rattle.memory.specs.Words.{seen_of};
ghost use Rattle.memory.specs.Went.{Death, Spared};
ghost use Rattle.memory.specs.declared.fate.Fate.{Fate};

use diary::Diary;
use fate::{Fate, Plan};
use platter::Platter;
pub use refusals::{CannotDie, TableFull};
use script::Script;

// A sector of a disk: what is read of it, and what was there at the last sync. `slot` and `listed` belong to the list of what was
// written since then: the place that is listed at `i` stands in cell `i`, and `slot` is where a cell's own place was listed last.
#[repr(C)]
#[derive(Clone, Copy, PartialEq, Eq, Debug)]
pub struct Cell {
    pub shown: [u64; 64],
    pub lasting: [u64; 64],
    pub slot: usize,
    pub listed: usize,
}

// A cell of noughts.
pub const BLANK: Cell = Cell {
    shown: [0; 64],
    lasting: [0; 64],
    slot: 0,
    listed: 0,
};

// What is known of a disk beside what it holds. `lost`: it has died since it was in use.
#[derive(Clone, Copy, PartialEq, Eq, Debug)]
pub struct Disk {
    alive: bool,
    in_use: bool,
    lost: bool,
}

// The disks, whether the power is on, and how often the disks may still be asked.
#[derive(Clone, Copy, PartialEq, Eq, Debug)]
pub struct State {
    disks: [Disk; 16],
    on: bool,
    left: u64,
}

#[derive(Drop)]
pub struct Memory<'a> {
    platter: Platter<'a>,
    diary: Diary<'a>,
    script: Script<'a>,
    state: State,
    plan: Plan,
}

impl State {
    // All disks are alive, four are in use, and the power is on.
    fn first() -> State
        ensures { result ≡ start }
    {
        let spare = Disk {
            alive: true,
            in_use: false,
            lost: false,
        };
        let mut disks = [spare; 16];
        disks[..4].fill(Disk {
            in_use: true,
            ..spare
        });
        State {
            disks,
            on: true,
            left: 0,
        }
    }
}

impl<'a> Memory<'a> {
    // Disks as they start: all are alive and hold noughts, four are in use, and nothing was seen.
    pub fn new(cells: &'a mut [Cell], log: &'a mut [u64], script: &'a [u64]) -> Memory<'a>
        requires { (2048 ≤ length cells.old) × (length cells.old ≤ 68719476736) }
        ensures starts { AtStart (shelf_of result) }
        ensures unseen { seen_of result.diary ≡ [] }
    {
        Memory {
            platter: Platter::new(cells),
            diary: Diary::new(log),
            script: Script::new(script),
            state: State::first(),
            plan: Plan::empty(),
        }
    }
}

impl Memory<'_> {
    // All begins anew, as `new` has it.
    pub fn restart(&mut self)
        ensures starts { 128 ≤ many self.old.platter → many self.old.platter ≤ 4294967296 → AtStart (shelf_of self.new) }
        ensures unseen { seen_of self.new.diary ≡ [] }
    {
        self.platter.clear();
        self.diary.clear();
        self.script.restart();
        self.state = State::first();
        self.plan = Plan::empty();
    }

    // Is the disk in use?
    pub fn in_use(&self, d: u32) -> bool
        requires { d < 16 }
        ensures { result ≡ (shelf_of self.now).uses d }
    {
        self.state.disks[d as usize].in_use
    }

    // A disk dies at once, if it may and that can be noted.
    pub fn kill(&mut self, d: u32) -> Result<(), CannotDie>
        ensures done { OnOk result (Death (shelf_of self.old) (seen_of self.old.diary) d (shelf_of self.new) (seen_of self.new.diary)) }
        ensures kept { OnErr result (Spared (shelf_of self.old) (seen_of self.old.diary) d (shelf_of self.new) (seen_of self.new.diary) (length self.old.diary.words.now ≤ self.old.diary.noted + 1)) }
    {
        self.state.die(&mut self.diary, d)
    }

    // A disk is to die at the n-th thing asked from now on.
    pub fn plan_death(&mut self, d: u32, n: u64) -> Result<(), TableFull>
        ensures same { (shelf_of self.new ≡ shelf_of self.old) × (seen_of self.new.diary ≡ seen_of self.old.diary) }
        ensures planned { OnOk result (Planned self.old.plan n (Fate.Dies d) self.new.plan) }
        ensures unplanned { OnErr result (self.new.plan ≡ self.old.plan) }
    {
        self.plan.schedule(n, Fate::Dies(d))
    }

    // The power is to go at the n-th thing asked from now on; `seed` chooses what is left.
    pub fn plan_cut(&mut self, n: u64, seed: u64) -> Result<(), TableFull>
        ensures same { (shelf_of self.new ≡ shelf_of self.old) × (seen_of self.new.diary ≡ seen_of self.old.diary) }
        ensures planned { OnOk result (Planned self.old.plan n (Fate.Cut seed) self.new.plan) }
        ensures unplanned { OnErr result (self.new.plan ≡ self.old.plan) }
    {
        self.plan.schedule(n, Fate::Cut(seed))
    }

    // How many deaths could not be when they were due, since this was asked last.
    pub fn spared(&mut self) -> u64
        ensures { (shelf_of self.new ≡ shelf_of self.old) × (seen_of self.new.diary ≡ seen_of self.old.diary) }
    {
        std::mem::take(&mut self.plan.spared)
    }
}
