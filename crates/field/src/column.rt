// A column's sector: sums, products by a constant, and its part in P and Q.
// It touches nothing but the words that it is lent. What goes over words tells its steps: each sum and each doubling of a word is one.
ghost use Rattle.std.specs.Prelude.{◌≡◌, ◌+◌, ◌-◌, ◌*◌, ◌<◌, ◌≤◌, map};
ghost use Rattle.field.specs.Field.{power, neighbour};
ghost use Rattle.field.specs.Word.{product8};
ghost use Rattle.field.specs.Column.{Good, add, Solves};

use crate::product::{PRODUCT_STEPS, times};
use crate::raising::{Plain, Raising};

// What a column has at one place of a disk: 512 elements, eight to a word.
pub type Sector = [u64; 64];

// Raises each word of `to` and adds `other`. By place: what a zip with `iter_mut` wrote is not known after it.
pub fn add_to<R: Raising>(to: &mut Sector, other: &Sector) -> usize
    ensures value { to.new ≡ add (map R.raise to.old) other.now }
    ensures good { Good other.now }
    ensures steps { result ≡ 64 * (R.STEPS + 1) }
{
    let mut steps = 0;
    for (i, word) in to.iter_mut().enumerate() {
        *word = R::raised(*word) ^ other[i];
        steps += R::STEPS + 1;
    }
    steps
}

// Each element times `c`.
fn scale(words: &mut Sector, c: u8) -> usize
    ensures value { words.new ≡ map (product8 c) words.old }
    ensures steps { result ≡ 1024 }
{
    let mut steps = 0;
    for word in words.iter_mut() {
        *word = times(c, *word);
        steps += PRODUCT_STEPS;
    }
    steps
}

// 1 / 2^x for each data column x.
const DOWN: [u8; 10] = [1, 142, 71, 173, 216, 108, 54, 27, 131, 207];

fn down(x: usize) -> u8
    requires { x < 10 }
    ensures { result ≡ power (255 - x) }
{
    DOWN[x]
}

// 1 / (1 + 2^d) for each difference d of two data columns, from 1 on.
const APART: [u8; 9] = [244, 167, 157, 114, 237, 95, 84, 160, 169];

fn apart(d: usize) -> u8
    requires { (1 ≤ d) × (d ≤ 9) }
    ensures { result ≡ power (255 - neighbour d) }
{
    APART[d - 1]
}

// Divides by 2^x.
pub fn lower(words: &mut Sector, x: usize) -> usize
    requires { x < 10 }
    ensures value { words.new ≡ map (product8 (power (255 - x))) words.old }
    ensures steps { result ≡ 1024 }
{
    scale(words, down(x))
}

// The columns x and y from their sum in `p` and the sum of their multiples by 2^x and 2^y in `q`.
pub fn solve(p: &mut Sector, q: &mut Sector, x: usize, y: usize) -> usize
    requires { (x < y) × (y < 10) }
    ensures value { Solves x y p.old q.old p.new q.new }
    ensures steps { result ≡ 2176 }
{
    let lowered = lower(q, x);
    let joined = add_to::<Plain>(q, p);
    let parted = scale(q, apart(y - x));
    lowered + joined + parted + add_to::<Plain>(p, q)
}
