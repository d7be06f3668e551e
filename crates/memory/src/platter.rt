// The cells of the disks: what is shown of each sector, what was there at the last sync, and what a cut leaves.
//
// Nothing is touched here but the cells that are lent. The first `written` cells hold a list of the places that were written since the
// last sync, so that a sync only has to forget the list, and a cut only has to go through it. It lies there so that no heap is needed.
ghost use Rattle.std.specs.Prelude.{◌≡◌, ℕ, ◌+◌, ◌*◌, ◌<◌, length};
ghost use Rattle.memory.specs.Held.{cell_at, waits as is_listed, before_of, many, Cleared, Laid};
ghost use Rattle.memory.specs.Draws.{drawn, left_of, listing, Chosen};
ghost use Rattle.memory.specs.declared.platter.Platter.{Platter};

use crate::{BLANK, Cell};

// The cells, and how many of them were written since the last sync. A place among the cells is a number, which can't know how many there are,
// so that it is one of them is required where a cell is looked at.
#[derive(Drop)]
pub struct Platter<'a> {
    cells: &'a mut [Cell],
    written: usize,
}

// The k-th number, counted from 0, of the sequence SplitMix64 that starts from the seed.
#[tactic(auto, unfolding(crate::specs::Draws::drawn))]
pub fn draw(seed: u64, k: u64) -> u64
    ensures { result ≡ drawn seed k }
{
    let step = k.wrapping_add(1).wrapping_mul(0x9E3779B97F4A7C15);
    let x = seed.wrapping_add(step);
    let y = (x ^ (x >> 30)).wrapping_mul(0xBF58476D1CE4E5B9);
    let z = (y ^ (y >> 27)).wrapping_mul(0x94D049BB133111EB);
    z ^ (z >> 31)
}

impl<'a> Platter<'a> {
    // All is noughts, and nothing was written.
    pub fn new(cells: &'a mut [Cell]) -> Platter<'a>
        ensures cleared { Cleared result }
        ensures size { length result.cells.now ≡ length cells.old }
    {
        cells.fill(BLANK);
        Platter { cells, written: 0 }
    }
}

impl Platter<'_> {
    // All becomes noughts, and nothing was written, as `new` has it.
    pub fn clear(&mut self)
        ensures cleared { Cleared self.new }
        ensures size { length self.new.cells.now ≡ length self.old.cells.now }
    {
        self.cells.fill(BLANK);
        self.set_listed(0);
    }

    // How many sectors each disk has.
    pub fn sectors(&self) -> u64
        ensures { result ≡ many self.now }
    {
        (self.cells.len() / 16) as u64
    }

    // The place of sector s of disk d among the cells.
    pub fn place(&self, d: u32, s: u64) -> usize
        requires { (d < 16) × (s < many self.now) }
        ensures place { result ≡ s * 16 + d }
        ensures inside { result < length self.now.cells.now }
    {
        let many = self.cells.len() / 16;
        prove!(s < many as u64);
        s as usize * 16 + d as usize
    }

    // What is shown of a cell.
    pub fn shown(&self, at: usize) -> &[u64; 64]
        requires { at < length self.now.cells.now }
        ensures { result.now ≡ (cell_at self.now at).shown }
    {
        let cells = &*self.cells;
        &cells[at].shown
    }

    // Was this cell written since the last sync?
    fn waits(&self, at: usize) -> bool
        requires { at < length self.now.cells.now }
        ensures { result ≡ is_listed self.now at }
    {
        let slot = self.cells[at].slot;
        slot < self.written && slot < self.cells.len() && self.cells[slot].listed == at
    }

    // From now on the cell shows this, and a cut may leave what lasts in its place until the next sync.
    fn lay(&mut self, at: usize, shown: [u64; 64], lasting: [u64; 64])
        requires { at < length self.old.cells.now }
        ensures { Laid self.old at shown lasting self.new }
    {
        let Cell { slot, listed, .. } = self.cells[at];
        if self.waits(at) || self.written >= self.cells.len() {
            self.cells[at] = Cell {
                shown,
                lasting,
                slot,
                listed,
            };
            return;
        }
        self.cells[at] = Cell {
            shown,
            lasting,
            slot: self.written,
            listed,
        };
        self.cells[self.written].listed = at;
        self.written += 1;
    }

    // Writes the cell over. What was there at the last sync is kept for a cut, unless what is shown now is to last at once.
    pub fn overwrite(&mut self, at: usize, words: [u64; 64], at_once: bool)
        requires { at < length self.old.cells.now }
        ensures { Laid self.old at words (before_of self.old at at_once) self.new }
    {
        let Cell { shown, lasting, .. } = self.cells[at];
        let before = if self.waits(at) && !at_once {
            lasting
        } else {
            shown
        };
        self.lay(at, words, before);
    }

    // The power goes while the cell is written over: these words may be left, or what is shown.
    pub fn tear(&mut self, at: usize, words: [u64; 64])
        requires { at < length self.old.cells.now }
        ensures { Laid self.old at (cell_at self.old at).shown words self.new }
    {
        let shown = self.cells[at].shown;
        self.lay(at, shown, words);
    }

    // So many of the list are listed from now on: what is shown of all others lasts.
    pub fn set_listed(&mut self, listed: usize)
        ensures { self.new ≡ listing listed self.old }
    {
        self.written = listed;
    }

    // What a cut leaves of the i-th cell that is listed: what was there at the last sync, if the seed draws so, or what is shown.
    fn choose_one(&mut self, i: usize, seed: u64)
        requires { i < length self.old.cells.now }
        ensures chosen { (p : Platter) → Chosen p i seed self.old → Chosen p (i + 1) seed self.new }
        ensures same { (self.new.written ≡ self.old.written) × (length self.new.cells.now ≡ length self.old.cells.now) }
    {
        let k = self.cells[i].listed;
        if k >= self.cells.len() || self.cells[k].slot != i || draw(seed, k as u64) < 1 << 63 {
            return;
        }
        let w = self.cells[k].lasting;
        self.cells[k].shown = w;
    }

    // What a cut leaves of each cell: nothing is listed any more.
    pub fn choose(&mut self, seed: u64)
        ensures left { (k : ℕ) → (cell_at self.new k).shown ≡ left_of self.old seed k }
        ensures size { length self.new.cells.now ≡ length self.old.cells.now }
        ensures forgotten { self.new.written ≡ 0 }
    {
        // The list lies in the cells that are changed, so it is gone through by its places.
        for i in 0..self.written.min(self.cells.len()) {
            self.choose_one(i, seed);
        }
        self.set_listed(0);
    }
}
