// Products, of an element and of the eight elements in a word, by doublings and sums.
// It touches nothing but the values that it is given.
ghost use Rattle.std.specs.Prelude.{◌≡◌, ℕ};
ghost use Rattle.field.specs.Field.{sum, pick, product_by};
ghost use Rattle.field.specs.Word.{double8};

// What is added and doubled: an element, or eight in a word.
pub trait Doubles: Copy {
    // Its bits, as a number.
    ghost number: { Self → ℕ };

    // Twice it, as numbers.
    ghost double: { ℕ → ℕ };

    fn nought() -> Self
        ensures { number result ≡ 0 };

    fn plus(self, other: Self) -> Self
        ensures { number result ≡ sum (number self) (number other) };

    fn twice(self) -> Self
        ensures { number result ≡ double (number self) };
}

// All bits of each element in a word but the highest.
const LOW: u64 = 0x7f7f_7f7f_7f7f_7f7f;

// The lowest bit of each element in a word.
const ONES: u64 = 0x0101_0101_0101_0101;

// Eight elements at once, by shifts and masks.
impl Doubles for u64 {
    ghost number = { λ v. v };

    ghost double = { double8 };

    fn nought() -> u64 {
        0
    }

    fn plus(self, other: u64) -> u64 {
        self ^ other
    }

    fn twice(self) -> u64 {
        let c = (self >> 7) & ONES;
        ((self & LOW) * 2) ^ (c ^ ((c * 4) ^ ((c * 8) ^ (c * 16))))
    }
}

// `v`, or nothing of it.
fn picked<V: Doubles>(bit: u8, v: V) -> V
    ensures { V.number result ≡ pick bit (V.number v) }
{
    if bit == 0 { V::nought() } else { v }
}

// A product is eight doublings and eight sums.
pub const PRODUCT_STEPS: usize = 16;

// `v` times `c`, in eight doublings, from the highest bit of `c` on.
pub fn times<V: Doubles>(c: u8, v: V) -> V
    ensures { V.number result ≡ product_by V.double 8 c (V.number v) }
{
    let mut r = V::nought();
    for j in (0..8u32).rev() {
        r = picked((c >> j) % 2, v).plus(r.twice());
    }
    r
}
