// The field's calls for programs in C and Rust, as a static library. They touch nothing but the words that they are lent. C has no
// `Result`, so each has a contract of its own: false says that it was refused.
#![tactic(auto)]

ghost use Rattle.std.specs.Prelude.{◌≡◌, ◌-◌, true, false};
ghost use Rattle.field.specs.Column.{IsP, IsQ};
ghost use Rattle.field.specs.Stripe.{column, data_of, Anew, MendsTwo};

// P and Q anew, in a stripe of k columns.
#[unsafe(no_mangle)]
pub extern "C" fn field_make_parity(stripe: &mut [u64], k: usize) -> bool
    ensures made { result ≡ true → Anew k (λ i. column i stripe.old) (λ i. column i stripe.new) }
    ensures refused { result ≡ false → stripe.new ≡ stripe.old }
{
    field::try_make_parity(stripe, k).is_ok()
}

// Columns a and b from the others, a < b, in a stripe of k columns.
#[unsafe(no_mangle)]
pub extern "C" fn field_mend(stripe: &mut [u64], k: usize, a: usize, b: usize) -> bool
    ensures made { result ≡ true → MendsTwo k a b (λ i. column i stripe.old) (λ i. column i stripe.new) }
    ensures refused { result ≡ false → stripe.new ≡ stripe.old }
{
    field::try_mend(stripe, k, a, b).is_ok()
}

// P and Q of a stripe of k columns into `p` and `q`, by the element's table.
#[unsafe(no_mangle)]
pub extern "C" fn field_parity_by_table(
    stripe: &[u64],
    k: usize,
    p: &mut [u64],
    q: &mut [u64],
) -> bool
    ensures is_p { result ≡ true → IsP (k - 2) (data_of (λ i. column i stripe.now)) p.new }
    ensures is_q { result ≡ true → IsQ (k - 2) (data_of (λ i. column i stripe.now)) q.new }
    ensures refused { result ≡ false → (p.new ≡ p.old) × (q.new ≡ q.old) }
{
    field::try_parity_by_table(stripe, k, p, q).is_ok()
}
