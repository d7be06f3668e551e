// What the disks in memory do on examples: which content a cut leaves, who may die, when a planned death comes, what is asked next.
//
// Nothing is here but tests and what they share. They stand apart from the crate `memory` so that it is proved but once.
#![tactic(auto)]

ghost use Rattle.std.specs.Prelude.{◌≡◌, ◌≤◌, [], IfSome};
ghost use Rattle.store.specs.Shelf.{AtStart};

use memory::{Cell, Memory};
use store::{Answer, Disks, World};

// Reads a sector, as anyone may who has leave to ask once. The power comes back where it has gone.
pub fn look(m: &mut Memory, d: u32, s: u64, into: &mut [u64; 64], room: &mut [u64]) -> Answer {
    if d > 15 || s >= m.sectors() {
        return Answer::Dead;
    }
    m.allow(1);
    let answer = m.read(d, s, into);
    if let Answer::Dark = answer {
        m.back(room);
    }
    answer
}

// Writes a sector of a disk in use: each of its words becomes this one.
pub fn put(m: &mut Memory, d: u32, s: u64, word: u64) -> Answer {
    if d > 15 || s >= m.sectors() || !m.in_use(d) {
        return Answer::Dead;
    }
    m.allow(1);
    m.write(d, s, &[word; 64])
}

// All that was written lasts.
pub fn settle(m: &mut Memory) -> Answer {
    m.allow(1);
    m.sync()
}

// What wants a world as it starts, with nothing seen, and any disks.
fn first_sight<W: Disks + World>(w: &mut W) -> u64
    requires starts { AtStart (W.shelf w.old) }
    requires unseen { W.seen w.old ≡ [] }
    ensures { (128 ≤ result) × (result ≤ 4294967296) }
{
    w.sectors()
}

// It can be called on a fresh memory with no further assumption, whatever memory is lent: none where that is too little or too much.
pub fn fresh<'a>(cells: &'a mut [Cell], log: &'a mut [u64], script: &'a [u64]) -> Option<u64>
    ensures { IfSome result (λ n. 128 ≤ n) }
{
    if cells.len() < 2048 || cells.len() > 68719476736 {
        return None;
    }
    let mut m = Memory::new(cells, log, script);
    Some(first_sight(&mut m))
}

#[cfg(test)]
mod tests;
