// Who the members of the store are, in their places, and which of them are known to be dead. It touches nothing but the value itself.
ghost use Rattle.std.specs.Prelude.{◌≡◌, ℕ, ◌+◌, ◌<◌, ◌≤◌, Bool, true, false, List, [], ◌∷◌, ◌++◌, length, drop, slice_index, slice_set};
ghost use Rattle.layout.specs.Members.{Roster, Absent, Finds, marked, with_mark, without_mark, unless};
ghost use Rattle.layout.specs.declared.members.Marks.TheVariants.{Nobody};

use std::marker::Model;

// Places whose disk is known to be dead: of a store's disks at most two are.
#[derive(Clone, Copy, PartialEq, Eq, Debug)]
pub enum Marks {
    Nobody,
    One(usize),
    Two(usize, usize),
}

impl Marks {
    // Whether place p is one of them.
    fn has(self, p: usize) -> bool
        ensures { result ≡ marked self p }
    {
        match self {
            Marks::Nobody => false,
            Marks::One(a) => a == p,
            Marks::Two(a, b) => a == p || b == p,
        }
    }

    // With place p too, unless there are two already.
    fn with(self, p: usize) -> Marks
        ensures { result ≡ with_mark self p }
    {
        match self {
            Marks::Nobody => Marks::One(p),
            Marks::One(a) if a != p => Marks::Two(a, p),
            Marks::One(_) | Marks::Two(_, _) => self,
        }
    }

    // Without place p.
    fn without(self, p: usize) -> Marks
        ensures { result ≡ without_mark self p }
    {
        match self {
            Marks::Nobody => Marks::Nobody,
            Marks::One(a) => one_unless(a, p),
            Marks::Two(a, b) if a == p => one_unless(b, p),
            Marks::Two(a, b) if b == p => Marks::One(a),
            Marks::Two(_, _) => self,
        }
    }
}

// A mark at place a, unless that is p.
fn one_unless(a: usize, p: usize) -> Marks
    ensures { result ≡ unless a p }
{
    if a == p { Marks::Nobody } else { Marks::One(a) }
}

// Four to twelve disks of the sixteen, each in its place, no disk twice; and at most two of them known to be dead, so that these need
// not be asked again. Behind the last of them are noughts, so that two with the same members are the same. An array and how many, and no
// `ArrayVec`: members are copied with the superblock that they stand in.
#[derive(Clone, Copy, PartialEq, Eq, Debug)]
pub struct Members {
    disks: [u32; 12],
    count: usize,
    dead: Marks,
}

impl Model for Members {
    ghost use Rattle.std.specs.Prelude.{ℕ, List, ◌-◌, ◌++◌, length, replicate, take};
    ghost use Rattle.std.proofs.Common.{ap, ◌∙◌};
    ghost use Rattle.layout.specs.Members.{Membership, Packed, unpacked};

    ghost Value = { Membership };

    ghost view = { λ m. record { list = take m.count m.disks; dead = m.dead } };

    ghost invariant = { λ m. Packed m.count m.disks };

    ghost inverse = { λ v. record { disks = v.list ++ replicate (12 - length v.list) 0; count = length v.list; dead = v.dead } };

    ghost inverse_ok = { λ m h. ap (λ (ds : List ℕ). record { disks = ds; count = length (take m.count m.disks); dead = m.dead }) (unpacked m.count m.disks h) ∙ ap (λ (n : ℕ). record { disks = m.disks; count = n; dead = m.dead }) h.many };
}

// Each word as a disk's number; behind the last word all stays. By place: what a zip with `iter_mut` wrote is not known after it.
fn narrow(words: &[u64], disks: &mut [u32])
    requires { (length words.now ≤ length disks.old) × (((p : ℕ) → p < length words.now → slice_index words.now p < 16)) }
    ensures { disks.new ≡ words.now ++ drop (length words.now) disks.old }
{
    for (p, &word) in words.iter().enumerate() {
        disks[p] = word as u32;
    }
}

impl Members {
    // The members that these words are, one to a word; nothing is known of them.
    pub fn read(words: &[u64]) -> Members
        requires { Roster words.now }
        ensures { (result.list ≡ words.now) × (result.dead ≡ Nobody) }
    {
        let mut disks = [0u32; 12];
        narrow(words, &mut disks);
        Members {
            disks,
            count: words.len(),
            dead: Marks::Nobody,
        }
    }

    // The four that are members at first.
    pub fn first() -> Members
        ensures { (result.list ≡ 0 ∷ 1 ∷ 2 ∷ 3 ∷ []) × (result.dead ≡ Nobody) }
    {
        Members {
            disks: [0, 1, 2, 3, 0, 0, 0, 0, 0, 0, 0, 0],
            count: 4,
            dead: Marks::Nobody,
        }
    }

    // How many there are.
    pub fn many(&self) -> usize
        ensures is { (result ≡ length self.now.list) × ((4 ≤ result) × (result ≤ 12)) }
        ensures roster { Roster self.now.list }
    {
        self.count
    }

    // The disks, in their places.
    pub fn disks(&self) -> &[u32]
        ensures is { result.now ≡ self.now.list }
        ensures roster { Roster self.now.list }
    {
        &self.disks[..self.count]
    }

    // The disk at place p.
    pub fn at(&self, p: usize) -> u32
        requires { p < length self.now.list }
        ensures { (result ≡ slice_index self.now.list p) × (result < 16) }
    {
        self.disks()[p]
    }

    // The place of disk d, if it is a member.
    pub fn find(&self, d: u32) -> Option<usize>
        ensures { Finds result d self.now.list }
    {
        self.disks().iter().position(|&e| e == d)
    }

    // Disk d in place p, of which nothing is known; all others stay.
    pub fn put(&mut self, p: usize, d: u32)
        requires place { p < length self.old.list }
        requires new { (d < 16) × (Absent d self.old.list) }
        ensures list { self.new.list ≡ slice_set self.old.list p d }
        ensures marks { self.new.dead ≡ without_mark self.old.dead p }
    {
        self.dead = self.dead.without(p);
        self.disks[p] = d;
    }

    // Disk d as one more, at the place behind the last, of which nothing is known.
    pub fn append(&mut self, d: u32)
        requires room { length self.old.list < 12 }
        requires new { (d < 16) × (Absent d self.old.list) }
        ensures list { self.new.list ≡ self.old.list ++ (d ∷ []) }
        ensures marks { self.new.dead ≡ without_mark self.old.dead (length self.old.list) }
    {
        self.disks[self.count] = d;
        self.dead = self.dead.without(self.count);
        self.count += 1;
    }

    // Place p has a dead disk, as is known from now on; nothing is noted where two are known already.
    pub fn mark(&mut self, p: usize)
        ensures list { self.new.list ≡ self.old.list }
        ensures marks { self.new.dead ≡ with_mark self.old.dead p }
    {
        self.dead = self.dead.with(p);
    }

    // Whether place p is known to have a dead disk.
    pub fn is_marked(&self, p: usize) -> bool
        ensures { result ≡ marked self.now.dead p }
    {
        self.dead.has(p)
    }
}
