// Which columns of a stripe are meant: a set of numbers below twelve. It touches nothing.
ghost use Rattle.std.specs.Prelude.{◌≡◌, ℕ, ◌<◌, true, false, replicate, slice_set};
ghost use Rattle.store.specs.Stripes.{chosen};

use std::marker::Model;

#[derive(Clone, Copy, PartialEq, Eq, Debug)]
pub struct Selection {
    columns: [bool; 12],
}

// It is seen as twelve answers, one for each column.
impl Model for Selection {
    ghost use Rattle.std.specs.Prelude.{Bool, List};

    ghost Value = { List Bool };

    ghost view = { λ s. s.columns };

    ghost inverse = { λ v. record { columns = v } };
}

impl Selection {
    // Every column.
    pub fn all() -> Selection
        ensures { (i : ℕ) → i < 12 → chosen result i ≡ true }
    {
        Selection {
            columns: [true; 12],
        }
    }

    // P and Q.
    pub fn parity() -> Selection
        ensures { result ≡ slice_set (slice_set (replicate 12 false) 0 true) 1 true }
    {
        let mut columns = [false; 12];
        columns[0] = true;
        columns[1] = true;
        Selection { columns }
    }

    // Column i too.
    pub fn add(&mut self, i: usize)
        requires { i < 12 }
        ensures { self.new ≡ slice_set self.old i true }
    {
        self.columns[i] = true;
    }

    // Whether column i is meant.
    pub fn has(&self, i: usize) -> bool
        requires { i < 12 }
        ensures { result ≡ chosen self.now i }
    {
        self.columns[i]
    }
}
