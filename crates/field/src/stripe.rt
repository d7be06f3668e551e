// A stripe of 4 to 12 columns, in a slice of columns or of words: column 0 is P, 1 is Q, 2 + j is data column j. Words behind the last whole
// column stay as they are.
// It touches nothing but the slice that it is lent, and tells its steps: each sum and each doubling of a word is one.
//
// That there are 4 to 12 columns stands in each contract: a struct round the slice that is lent would have to promise in each method, in
// place of that, that it still holds the same slice.
ghost use Rattle.std.specs.Prelude.{◌≡◌, ℕ, ◌+◌, ◌-◌, ◌*◌, ◌<◌, ◌≤◌, length};
ghost use Rattle.field.specs.Column.{Good, IsP, IsQ};
ghost use Rattle.field.specs.Stripe.{data_of, held, Few, Anew, Left, Restores, MendsTwo, Put};
ghost use Rattle.field.specs.Missing.{Within, Mends};

use crate::column::{Sector, add_to, lower, solve};
use crate::missing::Missing;
use crate::part::Part;
use crate::raising::{Doubling, Plain, Shifts};

// P and Q of the data columns, into `p` and `q`, the doubles had by D.
pub fn parity<D: Doubling>(stripe: &[Sector], p: &mut Sector, q: &mut Sector) -> usize
    requires { (2 ≤ length stripe.now) × (length stripe.now ≤ 12) }
    ensures is_p { IsP (length stripe.now - 2) (data_of (held stripe.now)) p.new }
    ensures is_q { IsQ (length stripe.now - 2) (data_of (held stripe.now)) q.new }
    ensures good { (j : ℕ) → Good (held stripe.now (2 + j)) }
    ensures steps { result ≡ 64 * (D.STEPS + 2) * (length stripe.now - 2) }
{
    *p = [0; 64];
    *q = [0; 64];
    let mut steps = 0;
    for column in stripe[2..].iter().rev() {
        steps += add_to::<Plain>(p, column);
        steps += add_to::<D>(q, column);
    }
    steps
}

// Makes P and Q anew from the data columns.
pub fn make_parity<T: Part>(stripe: &mut [T]) -> usize
    requires { Few (length (T.cut stripe.old)) }
    ensures anew { Anew (length (T.cut stripe.old)) (held (T.cut stripe.old)) (held (T.cut stripe.new)) }
    ensures many { length (T.cut stripe.new) ≡ length (T.cut stripe.old) }
    ensures behind { T.rest stripe.new ≡ T.rest stripe.old }
    ensures good { (i : ℕ) → Good (held (T.cut stripe.new) i) }
    ensures steps { result ≡ 192 * (length (T.cut stripe.old) - 2) }
{
    let mut p = [0; 64];
    let mut q = [0; 64];
    let steps = parity::<Shifts>(T::columns(stripe), &mut p, &mut q);
    T::write(stripe, 0, &p);
    T::write(stripe, 1, &q);
    steps
}

// What the data columns leave of P and Q.
fn left(stripe: &[Sector], p: &mut Sector, q: &mut Sector) -> usize
    requires { Few (length stripe.now) }
    ensures value { Left (length stripe.now) (held stripe.now) p.new q.new }
    ensures steps { result ≡ 192 * (length stripe.now - 2) + 128 }
{
    let steps = parity::<Shifts>(stripe, p, q);
    let in_p = add_to::<Plain>(p, &stripe[0]);
    let in_q = add_to::<Plain>(q, &stripe[1]);
    steps + in_p + in_q
}

// Data column i - 2 from P and the other data columns.
fn from_p<T: Part>(stripe: &mut [T], i: usize) -> usize
    requires few { Few (length (T.cut stripe.old)) }
    requires data { (2 ≤ i) × (i < length (T.cut stripe.old)) }
    ensures restored { Restores (length (T.cut stripe.old)) i 1 (held (T.cut stripe.old)) (held (T.cut stripe.new)) }
    ensures many { length (T.cut stripe.new) ≡ length (T.cut stripe.old) }
    ensures behind { T.rest stripe.new ≡ T.rest stripe.old }
    ensures steps { result ≡ 192 * (length (T.cut stripe.old) - 2) + 128 }
{
    let mut p = [0; 64];
    let mut q = [0; 64];
    T::write(stripe, i, &[0; 64]);
    let steps = left(T::columns(stripe), &mut p, &mut q);
    T::write(stripe, i, &p);
    steps
}

// Data column i - 2 from Q and the other data columns.
fn from_q<T: Part>(stripe: &mut [T], i: usize) -> usize
    requires few { Few (length (T.cut stripe.old)) }
    requires data { (2 ≤ i) × (i < length (T.cut stripe.old)) }
    ensures restored { Restores (length (T.cut stripe.old)) i 0 (held (T.cut stripe.old)) (held (T.cut stripe.new)) }
    ensures many { length (T.cut stripe.new) ≡ length (T.cut stripe.old) }
    ensures behind { T.rest stripe.new ≡ T.rest stripe.old }
    ensures steps { result ≡ 192 * (length (T.cut stripe.old) - 2) + 1152 }
{
    let mut p = [0; 64];
    let mut q = [0; 64];
    T::write(stripe, i, &[0; 64]);
    let steps = left(T::columns(stripe), &mut p, &mut q);
    let lowered = lower(&mut q, i - 2);
    T::write(stripe, i, &q);
    steps + lowered
}

// Two data columns from P, Q and the other data columns.
fn from_both<T: Part>(stripe: &mut [T], a: usize, b: usize) -> usize
    requires few { Few (length (T.cut stripe.old)) }
    requires data { (2 ≤ a) × ((a < b) × (b < length (T.cut stripe.old))) }
    ensures mended { MendsTwo (length (T.cut stripe.old)) a b (held (T.cut stripe.old)) (held (T.cut stripe.new)) }
    ensures many { length (T.cut stripe.new) ≡ length (T.cut stripe.old) }
    ensures behind { T.rest stripe.new ≡ T.rest stripe.old }
    ensures steps { result ≡ 192 * (length (T.cut stripe.old) - 2) + 2304 }
{
    let mut p = [0; 64];
    let mut q = [0; 64];
    T::write(stripe, a, &[0; 64]);
    T::write(stripe, b, &[0; 64]);
    let steps = left(T::columns(stripe), &mut p, &mut q);
    let solved = solve(&mut p, &mut q, a - 2, b - 2);
    T::write(stripe, a, &p);
    T::write(stripe, b, &q);
    steps + solved
}

// Columns a and b from the others.
pub fn mend_two<T: Part>(stripe: &mut [T], a: usize, b: usize) -> usize
    requires few { Few (length (T.cut stripe.old)) }
    requires within { (a < b) × (b < length (T.cut stripe.old)) }
    ensures mended { MendsTwo (length (T.cut stripe.old)) a b (held (T.cut stripe.old)) (held (T.cut stripe.new)) }
    ensures many { length (T.cut stripe.new) ≡ length (T.cut stripe.old) }
    ensures behind { T.rest stripe.new ≡ T.rest stripe.old }
    ensures steps { result ≤ 384 * (length (T.cut stripe.old) - 2) + 2304 }
{
    if a >= 2 {
        from_both(stripe, a, b)
    } else if b < 2 {
        make_parity(stripe)
    } else if a == 0 {
        let steps = from_q(stripe, b);
        steps + make_parity(stripe)
    } else {
        let steps = from_p(stripe, b);
        steps + make_parity(stripe)
    }
}

// All columns, from those that aren't missing.
pub fn mend<T: Part>(stripe: &mut [T], missing: Missing) -> usize
    requires few { Few (length (T.cut stripe.old)) }
    requires within { Within (length (T.cut stripe.old)) missing }
    ensures mended { Mends (length (T.cut stripe.old)) missing (held (T.cut stripe.old)) (held (T.cut stripe.new)) }
    ensures many { length (T.cut stripe.new) ≡ length (T.cut stripe.old) }
    ensures behind { T.rest stripe.new ≡ T.rest stripe.old }
    ensures steps { result ≤ 384 * (length (T.cut stripe.old) - 2) + 2304 }
{
    match missing {
        Missing::Nothing => 0,
        Missing::One(a) => {
            if a < 2 {
                make_parity(stripe)
            } else {
                from_p(stripe, a)
            }
        }
        Missing::Two(a, b) => mend_two(stripe, a, b),
    }
}

// Puts `words` in for data column j, and makes P and Q anew.
pub fn put<T: Part>(stripe: &mut [T], j: usize, words: &Sector) -> usize
    requires few { Few (length (T.cut stripe.old)) }
    requires within { 2 + j < length (T.cut stripe.old) }
    ensures done { Put (length (T.cut stripe.old)) j words.now (held (T.cut stripe.old)) (held (T.cut stripe.new)) }
    ensures many { length (T.cut stripe.new) ≡ length (T.cut stripe.old) }
    ensures behind { T.rest stripe.new ≡ T.rest stripe.old }
    ensures steps { result ≡ 192 * (length (T.cut stripe.old) - 2) }
{
    T::write(stripe, 2 + j, words);
    make_parity(stripe)
}
