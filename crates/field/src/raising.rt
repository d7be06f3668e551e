// What is done to the words of a sum before the next column is added to it: nothing, for P; for Q each element is doubled, by shifts
// and masks, or by the element's table, a look-up for each. The table is there only to compare its steps with those of the shifts.
// It touches nothing but the words that it is given.
ghost use Rattle.std.specs.Prelude.{◌≡◌, ℕ, ◌≤◌, refl};
ghost use Rattle.std.proofs.Common.{arith};
ghost use Rattle.field.specs.Word.{double8};

use crate::element::Element;
use crate::product::Doubles;

// What becomes of a word, and how many steps that is.
pub trait Raising {
    const STEPS: usize;

    ghost STEPS: { ℕ };

    ghost raise: { ℕ → ℕ };

    fn raised(v: u64) -> u64
        ensures { result ≡ raise v };

    // It is no step, one, or one for each element.
    ghost few: { STEPS ≤ 8 };
}

// Each element is doubled.
pub trait Doubling: Raising {
    ghost doubles: { (v : ℕ) → Self.raise v ≡ double8 v };
}

// Nothing is done.
#[derive(Clone, Copy, PartialEq, Eq, Debug)]
pub struct Plain;

impl Raising for Plain {
    const STEPS: usize = 0;

    ghost STEPS = { 0 };

    ghost raise = { λ v. v };

    fn raised(v: u64) -> u64 {
        v
    }

    ghost few = { omega arith };
}

// The word is doubled as a whole, by shifts and masks.
#[derive(Clone, Copy, PartialEq, Eq, Debug)]
pub struct Shifts;

impl Raising for Shifts {
    const STEPS: usize = 1;

    ghost STEPS = { 1 };

    ghost raise = { double8 };

    fn raised(v: u64) -> u64 {
        v.twice()
    }

    ghost few = { omega arith };
}

impl Doubling for Shifts {
    ghost doubles = { λ v. refl };
}

// Each element is looked up.
#[derive(Clone, Copy, PartialEq, Eq, Debug)]
pub struct Table;

impl Raising for Table {
    const STEPS: usize = 8;

    ghost STEPS = { 8 };

    ghost raise = { double8 };

    fn raised(v: u64) -> u64 {
        let mut r: u64 = 0;
        for byte in v.to_be_bytes() {
            r = r * 256 + u64::from(u8::from(Element::from(byte).twice()));
        }
        r
    }

    ghost few = { omega arith };
}

impl Doubling for Table {
    ghost doubles = { λ v. refl };
}
