// What a stripe is a slice of: its columns, or words of which 64 are a column, one column behind the other, as programs in C and Rust
// lend them. Nothing is touched but the slice.
ghost use Rattle.std.specs.Prelude.{◌≡◌, ℕ, ◌*◌, ◌/◌, ◌<◌, List, [], length, drop, slice_set};
ghost use Rattle.std.specs.Simd.{first_chunks};

use crate::column::Sector;

pub trait Part: Copy {
    // The columns that a slice is.
    ghost cut: { List Self → List (List ℕ) };

    // What stands behind the last of them.
    ghost rest: { List Self → List Self };

    // Its columns, to be read.
    fn columns(stripe: &[Self]) -> &[Sector]
        ensures { result.now ≡ cut stripe.now };

    // Column i anew, and nothing else.
    fn write(stripe: &mut [Self], i: usize, words: &Sector)
        requires { i < length (cut stripe.old) }
        ensures set { cut stripe.new ≡ slice_set (cut stripe.old) i words.now }
        ensures many { length (cut stripe.new) ≡ length (cut stripe.old) }
        ensures behind { rest stripe.new ≡ rest stripe.old };
}

// A column is one of the slice.
impl Part for Sector {
    ghost cut = { λ s. s };

    ghost rest = { λ s. [] };

    fn columns(stripe: &[Sector]) -> &[Sector] {
        stripe
    }

    fn write(stripe: &mut [Sector], i: usize, words: &Sector) {
        stripe[i] = *words;
    }
}

// A column is 64 of the slice. They are written one by one: columns that `as_chunks_mut` lends would be known no more once they are given back.
impl Part for u64 {
    ghost cut = { λ s. first_chunks 64 (length s / 64) s };

    ghost rest = { λ s. drop (64 * (length s / 64)) s };

    fn columns(stripe: &[u64]) -> &[Sector] {
        let (columns, _) = stripe.as_chunks::<64>();
        columns
    }

    #[tactic(auto, using(crate::proofs::Words::chunks_many))]
    fn write(stripe: &mut [u64], i: usize, words: &Sector) {
        stripe[64 * i..64 * i + 64].copy_from_slice(words);
    }
}
