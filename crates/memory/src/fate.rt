// Deaths and cuts: which disks are alive, what is to come and when.
//
// Nothing is touched here but the state and the plan, and the log where a death is noted. What is to come is counted by things asked:
// each read, write and sync that the power is on for is one, and so is each coming back of the power.
ghost use Rattle.std.specs.Prelude.{◌≡◌, ℕ, ◌+◌, ◌<◌, ◌≤◌, ◌&&◌, Some, None, length, MatchOption, ◌≢◌, OnOk, OnErr};
ghost use Rattle.store.specs.Shelf.{Dies as Perish, count};
ghost use Rattle.memory.specs.Held.{shelf_with, disk_at};
ghost use Rattle.memory.specs.Plans.{due, due_at, Planned, Comes, NotYet, NoneDies, Timely};
ghost use Rattle.memory.specs.Words.{seen_of};
ghost use Rattle.memory.specs.Went.{Went, Death, Spared};
ghost use Rattle.memory.specs.declared.fate.Fate.{Fate};
ghost use Rattle.memory.specs.declared.platter.Platter.{Platter};

use crate::diary::Diary;
use crate::platter::draw;
use crate::refusals::{CannotDie, TableFull};
use crate::usage::place;
use crate::{Disk, State};

// What is to come: a disk dies; the power goes, and this number chooses what is left.
#[derive(Clone, Copy, PartialEq, Eq, Debug)]
pub enum Fate {
    Dies(u32),
    Cut(u64),
}

// What is to come at the thing asked of this number.
#[derive(Clone, Copy, PartialEq, Eq, Debug)]
pub struct Due {
    at: u64,
    fate: Fate,
}

// Of the disks in use, so many may have died in use.
const MOST_LOST: usize = 2;

// How many deaths and cuts can be planned at once.
pub const PLANS: usize = 32;

// What is to come. `asks`: how many things were asked so far. `spared`: how many deaths could not be when they were due. `seed`: what the
// latest cut chooses by.
#[derive(Clone, Copy, PartialEq, Eq, Debug)]
pub struct Plan {
    asks: u64,
    due: [Option<Due>; PLANS],
    pub spared: u64,
    pub seed: u64,
}

// What became of the power while something was asked: it stays; it goes; it had gone before.
#[derive(Clone, Copy, PartialEq, Eq, Debug)]
pub enum Power {
    Stays,
    Goes,
    Gone,
}

impl Fate {
    // The disk that dies, if one does.
    fn death(self) -> Option<u32>
        ensures { MatchOption result ((d : ℕ) → self ≢ Fate.Dies d) (λ d. self ≡ Fate.Dies d) }
    {
        match self {
            Fate::Dies(d) => Some(d),
            Fate::Cut(_) => None,
        }
    }

    // What a cut chooses by, if it is one.
    fn cut(self) -> Option<u64>
        ensures { MatchOption result ((seed : ℕ) → self ≢ Fate.Cut seed) (λ seed. self ≡ Fate.Cut seed) }
    {
        match self {
            Fate::Cut(seed) => Some(seed),
            Fate::Dies(_) => None,
        }
    }
}

// What is planned at a place of the table, if it is due and of this kind: it is planned no more.
fn take_due<T, F: Fn(Fate) -> Option<T>>(place: &mut Option<Due>, asks: u64, kind: F) -> Option<T>
    requires { F.IsAlwaysCallable kind }
    ensures { MatchOption result ((place.new ≡ place.old) × ((at : ℕ) (f : Fate) → place.old ≡ Some (due at f) → at ≤ asks → F.post kind f None)) (λ x. (at : ℕ) × ((f : Fate) × ((place.old ≡ Some (due at f)) × ((at ≤ asks) × ((place.new ≡ None) × F.post kind f (Some x)))))) }
{
    let Some(Due { at, fate }) = *place else {
        return None;
    };
    if at > asks {
        return None;
    }
    let found = kind(fate);
    if found.is_some() {
        *place = None;
    }
    found
}

impl State {
    // How many disks in use have died in use.
    fn weakness(&self) -> usize
        ensures { result ≡ count 16 (λ (d : ℕ). (disk_at self.now d).in_use && (disk_at self.now d).lost) }
    {
        self.disks
            .iter()
            .filter(|disk| disk.in_use && disk.lost)
            .count()
    }

    // The disk dies, if it may and that can be noted.
    pub fn die(&mut self, diary: &mut Diary, disk: u32) -> Result<(), CannotDie>
        ensures done { OnOk result ((p : Platter) → Death (shelf_with p diary.old self.old) (seen_of diary.old) disk (shelf_with p diary.new self.new) (seen_of diary.new)) }
        ensures kept { OnErr result ((p : Platter) → Spared (shelf_with p diary.old self.old) (seen_of diary.old) disk (shelf_with p diary.new self.new) (seen_of diary.new) (length diary.old.words.now ≤ diary.old.noted + 1)) }
    {
        let d = place(disk)?;
        let Disk {
            alive,
            in_use,
            lost,
        } = self.disks[d];
        if !alive || in_use && self.weakness() >= MOST_LOST {
            return Err(CannotDie);
        }
        diary.note_death(disk)?;
        self.disks[d] = Disk {
            alive: false,
            in_use,
            lost: lost || in_use,
        };
        Ok(())
    }
}

impl Plan {
    // Nothing is to come.
    pub fn empty() -> Plan {
        Plan {
            asks: 0,
            due: [None; PLANS],
            spared: 0,
            seed: 0,
        }
    }

    // Plans something for the n-th thing asked from now on.
    pub fn schedule(&mut self, n: u64, fate: Fate) -> Result<(), TableFull>
        ensures planned { OnOk result (Planned self.old n fate self.new) }
        ensures full { OnErr result ((self.new ≡ self.old) × ((i : ℕ) → i < 32 → due_at self.old i ≢ None)) }
    {
        let at = self.asks.saturating_add(n);
        for place in self.due.iter_mut() {
            if place.is_none() {
                *place = Some(Due { at, fate });
                return Ok(());
            }
        }
        Err(TableFull)
    }

    // What the first cut that is due chooses by: it is planned no more.
    fn cut_due(&mut self) -> Option<u64>
        ensures { MatchOption result ((self.new ≡ self.old) × ((i seed : ℕ) → i < 32 → NotYet self.old i (Fate.Cut seed))) (λ seed. (i : ℕ) × (i < 32) × Comes self.old i (Fate.Cut seed) self.new) }
    {
        let asks = self.asks;
        for place in self.due.iter_mut() {
            if let Some(seed) = take_due(place, asks, Fate::cut) {
                return Some(seed);
            }
        }
        None
    }

    // Does what was shown of a sector become lasting now that it is written over? That is for the next cut to choose. One that is planned for
    // the last number there is, is not looked at.
    pub fn lasts_at_once(&self) -> bool {
        self.due
            .iter()
            .filter_map(|due| match due {
                Some(
                    Due {
                        at,
                        fate: Fate::Cut(seed),
                    },
                ) if *at > self.asks && *at < u64::MAX => Some((at - self.asks, *seed)),
                _ => None,
            })
            .min_by_key(|(ahead, _)| *ahead)
            .is_some_and(|(ahead, seed)| draw(seed, ahead) % 2 == 1)
    }

    // Those die whose time has come, if they may; those that may not are counted.
    pub fn strike(&mut self, state: &mut State, diary: &mut Diary)
        ensures died { (p : Platter) → Perish (shelf_with p diary.old state.old) (seen_of diary.old) (shelf_with p diary.new state.new) (seen_of diary.new) }
        ensures timely { (NoneDies self.new) × (self.new.asks ≡ self.old.asks) }
    {
        let asks = self.asks;
        let mut kept = 0;
        for place in self.due.iter_mut() {
            if let Some(d) = take_due(place, asks, Fate::death) {
                if state.die(diary, d).is_err() {
                    kept += 1;
                }
            }
        }
        self.spared = self.spared.saturating_add(kept);
    }

    // The power comes back, as one thing more that is asked: some disks may die in the dark.
    pub fn wake(&mut self, state: &mut State, diary: &mut Diary)
        ensures died { (p : Platter) → Perish (shelf_with p diary.old state.old) (seen_of diary.old) (shelf_with p diary.new state.new) (seen_of diary.new) }
    {
        self.asks = self.asks.saturating_add(1);
        self.strike(state, diary);
    }

    // Something is asked of the disks: some may die, the power may go.
    pub fn asked(&mut self, state: &mut State, diary: &mut Diary) -> Power
        requires { 0 < state.old.left }
        ensures went { (p : Platter) → Went (shelf_with p diary.old state.old) (seen_of diary.old) result (shelf_with p diary.new state.new) (seen_of diary.new) }
        ensures timely { Timely self.old result self.new (length diary.new.words.now ≤ diary.new.noted) }
    {
        state.left -= 1;
        if !state.on && !diary.is_full() {
            return Power::Gone;
        }
        self.asks = self.asks.saturating_add(1);
        self.strike(state, diary);
        if diary.is_full() {
            return Power::Stays;
        }
        match self.cut_due() {
            Some(seed) => {
                self.seed = seed;
                state.on = false;
                Power::Goes
            }
            None => Power::Stays,
        }
    }
}
