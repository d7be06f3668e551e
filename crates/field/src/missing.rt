// Which columns of a stripe are missing: none, one or two. Members keep marks of the same shape, which aren't in order, are looked
// through before one is added, and are let go again: one type for both would have two ways to add.
// It touches nothing.
ghost use Rattle.std.specs.Prelude.{◌≡◌};

#[derive(Clone, Copy, PartialEq, Eq, Debug)]
pub enum Missing {
    Nothing,
    One(usize),
    // the lower one first
    Two(usize, usize),
}

impl Missing {
    ghost use Rattle.field.specs.Missing.{and_also};

    // Column i is missing too, of which there are never three.
    pub fn also(self, i: usize) -> Missing
        ensures { result ≡ and_also self i }
    {
        match self {
            Missing::Nothing => Missing::One(i),
            Missing::One(a) => Missing::Two(a, i),
            Missing::Two(a, b) => Missing::Two(a, b),
        }
    }
}
