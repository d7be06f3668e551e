// Stripes in one slice of words, one column behind the other, as programs in C and Rust lend them. No proof holds such a caller to a
// contract, so what doesn't fit is refused. Nothing is touched but the words that are lent. The crate `field_c` exports these calls.
ghost use Rattle.std.specs.Prelude.{◌≡◌, ◌↔◌, ◌-◌, ◌*◌, Some, IsTrue, IfOk, OnOk, OnErr, codes};
ghost use Rattle.field.specs.Column.{IsP, IsQ};
ghost use Rattle.field.specs.Stripe.{column, data_of, Few, Cut, Anew, MendsTwo};

use crate::column::Sector;
use crate::part::Part;
use crate::raising::Table;
use crate::stripe::{make_parity, mend_two, parity};
use std::error::Error;
use std::fmt;

// What was lent isn't a stripe of so many columns, or there are no such columns.
#[derive(Clone, Copy, PartialEq, Eq, Debug)]
pub struct Misfit;

impl fmt::Display for Misfit {
    ghost output = { λ _. Some (codes "no stripe of so many columns, or no such columns") };

    fn fmt<W: fmt::Write>(&self, f: &mut fmt::Formatter<W>) -> fmt::Result {
        f.write_str("no stripe of so many columns, or no such columns")
    }
}

impl Error for Misfit {}

// Whether so many words are a stripe of k columns.
fn fits(words: usize, k: usize) -> bool
    ensures { IsTrue result ↔ Few k × (words ≡ 64 * k) }
{
    4 <= k && k <= 12 && words == 64 * k
}

// The columns of a stripe of k.
fn columns_of(stripe: &[u64], k: usize) -> Result<&[Sector], Misfit>
    ensures { IfOk result (λ columns. Cut k stripe.now columns.now) }
{
    if !fits(stripe.len(), k) {
        return Err(Misfit);
    }
    Ok(u64::columns(stripe))
}

// P and Q anew, in a stripe of k columns.
pub fn try_make_parity(stripe: &mut [u64], k: usize) -> Result<(), Misfit>
    ensures made { OnOk result (Anew k (λ i. column i stripe.old) (λ i. column i stripe.new)) }
    ensures refused { OnErr result (stripe.new ≡ stripe.old) }
{
    if !fits(stripe.len(), k) {
        return Err(Misfit);
    }
    let _ = make_parity(stripe);
    Ok(())
}

// Columns a and b from the others, a < b, in a stripe of k columns.
pub fn try_mend(stripe: &mut [u64], k: usize, a: usize, b: usize) -> Result<(), Misfit>
    ensures made { OnOk result (MendsTwo k a b (λ i. column i stripe.old) (λ i. column i stripe.new)) }
    ensures refused { OnErr result (stripe.new ≡ stripe.old) }
{
    if !fits(stripe.len(), k) {
        return Err(Misfit);
    }
    if a >= b || b >= k {
        return Err(Misfit);
    }
    let _ = mend_two(stripe, a, b);
    Ok(())
}

// P and Q of a stripe of k columns into `p` and `q`, by the element's table.
pub fn try_parity_by_table(
    stripe: &[u64],
    k: usize,
    p: &mut [u64],
    q: &mut [u64],
) -> Result<(), Misfit>
    ensures is_p { OnOk result (IsP (k - 2) (data_of (λ i. column i stripe.now)) p.new) }
    ensures is_q { OnOk result (IsQ (k - 2) (data_of (λ i. column i stripe.now)) q.new) }
    ensures refused { OnErr result ((p.new ≡ p.old) × (q.new ≡ q.old)) }
{
    let columns = columns_of(stripe, k)?;
    if p.len() != 64 || q.len() != 64 {
        return Err(Misfit);
    }
    let mut sums = [0; 64];
    let mut multiples = [0; 64];
    let _ = parity::<Table>(columns, &mut sums, &mut multiples);
    p.copy_from_slice(&sums);
    q.copy_from_slice(&multiples);
    Ok(())
}
