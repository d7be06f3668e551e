// Known values of the field from outside, and the example of six columns, run through the crate's public calls.
// They stand apart from the field, whose proof is then done once.
#![tactic(auto)]

ghost use Rattle.std.specs.Prelude.{◌<◌};

#[cfg(test)]
mod tests {
    use field::{Doubles, Element, Missing, Sector};

    fn power(n: u32) -> u8 {
        let mut r = Element::from(1);
        for _ in 0..n {
            r = r.twice();
        }
        u8::from(r)
    }

    #[test]
    fn twice_0x80_is_0x1d(rt: HostRuntime) {
        assert_eq!(rt; Element::from(0x80).twice(), Element::from(0x1d));
        assert_eq!(rt; Element::from(2) * Element::from(0x80), Element::from(0x1d));
    }

    #[test]
    fn powers_of_two(rt: HostRuntime) {
        assert_eq!(rt; power(8), 0x1d);
        assert_eq!(rt; power(16), 0x4c);
        assert_eq!(rt; power(254), 0x8e);
        assert_eq!(rt; power(255), 1);
    }

    #[test]
    fn sums_and_products(rt: HostRuntime) {
        assert_eq!(rt;
            Element::from(0x53) + Element::from(0xca),
            Element::from(0x99)
        );
        assert_eq!(rt; Element::from(3) * Element::from(7), Element::from(9));
        assert_eq!(rt;
            Element::from(0xff) * Element::from(0xff),
            Element::from(0xe2)
        );
        assert_eq!(rt; Element::from(2) * Element::from(0x8e), Element::from(1));
    }

    // What stands in the place of a column that is lost.
    const SPOILT: Sector = [0xdead_beef; 64];

    #[test]
    fn six_columns(rt: HostRuntime) {
        let mut stripe = [[0; 64]; 6];
        let _ = field::put(&mut stripe, 0, &[7; 64]);
        let _ = field::put(&mut stripe, 1, &[8; 64]);
        let _ = field::put(&mut stripe, 2, &[9; 64]);
        let _ = field::put(&mut stripe, 3, &[10; 64]);
        assert_eq!(rt; (stripe[0][0], stripe[1][0]), (12, 99));
        stripe[3] = SPOILT;
        stripe[4] = SPOILT;
        assert_eq!(rt; field::mend(&mut stripe, Missing::Two(3, 4)), 3072);
        assert_eq!(rt; (stripe[3][0], stripe[3][63]), (8, 8));
        assert_eq!(rt; (stripe[4][0], stripe[4][63]), (9, 9));
    }

    // The same in words, one column behind the other.
    #[test]
    fn six_columns_in_words(rt: HostRuntime) {
        let mut words = [0u64; 384];
        let _ = field::put(&mut words, 0, &[7; 64]);
        let _ = field::put(&mut words, 1, &[8; 64]);
        let _ = field::put(&mut words, 2, &[9; 64]);
        let _ = field::put(&mut words, 3, &[10; 64]);
        assert_eq!(rt; (words[0], words[64]), (12, 99));
        words[192] = 0xdead_beef;
        words[319] = 0xdead_beef;
        assert_eq!(rt; field::mend(&mut words, Missing::Two(3, 4)), 3072);
        assert_eq!(rt; (words[192], words[255]), (8, 8));
        assert_eq!(rt; (words[256], words[319]), (9, 9));
    }

    // Numbers in no order.
    fn scatter(stripe: &mut [Sector]) {
        let mut x = 1u64;
        for word in stripe.as_flattened_mut() {
            x = x
                .wrapping_mul(6364136223846793005)
                .wrapping_add(1442695040888963407);
            *word = x;
        }
    }

    // Columns a and b of twelve are spoilt, and are had again.
    fn had_again(whole: &[Sector; 12], a: usize, b: usize) -> bool
        requires { (a < b) × (b < 12) }
    {
        let mut stripe = *whole;
        stripe[a] = SPOILT;
        stripe[b] = SPOILT;
        let _ = field::mend(&mut stripe, Missing::Two(a, b));
        stripe == *whole
    }

    // Any two of the twelve are.
    fn all_had_again(whole: &[Sector; 12]) -> bool {
        for a in 0..12usize {
            for b in a + 1..12 {
                if !had_again(whole, a, b) {
                    return false;
                }
            }
        }
        true
    }

    #[test]
    fn any_two_of_twelve(rt: HostRuntime) {
        let mut stripe = [[0; 64]; 12];
        scatter(&mut stripe);
        assert_eq!(rt; field::make_parity(&mut stripe), 1920);
        assert!(rt; all_had_again(&stripe));
    }
}
