// A word read as a number or as a byte. Only the word that is lent is read.
ghost use Rattle.std.specs.Prelude.{◌≡◌};
ghost use Rattle.script.specs.Numbers.{digit_of, hex_digit_of, small_of, large_of, place_of, byte_of};

// The value of a decimal digit.
fn digit(b: u8) -> Option<u8>
    ensures { result ≡ digit_of b }
{
    match b {
        b'0'..=b'9' => Some(b - b'0'),
        _ => None,
    }
}

// The value of a hexadecimal digit.
fn hex_digit(b: u8) -> Option<u8>
    ensures { result ≡ hex_digit_of b }
{
    match b {
        b'a'..=b'f' => Some(b - b'a' + 10),
        _ => digit(b),
    }
}

// A sector, or how many: a word of decimal digits.
pub fn large(word: &[u8]) -> Option<u64>
    ensures { result ≡ large_of word.now }
{
    if word.is_empty() {
        return None;
    }
    let mut n: u64 = 0;
    for &b in word {
        let d = digit(b)?;
        n = n.checked_mul(10)?.checked_add(u64::from(d))?;
    }
    Some(n)
}

// A tag or a disk.
pub fn small(word: &[u8]) -> Option<u32>
    ensures { result ≡ small_of word.now }
{
    u32::try_from(large(word)?).ok()
}

// Which one it is, counted from 1.
pub fn place(word: &[u8]) -> Option<u64>
    ensures { result ≡ place_of word.now }
{
    large(word).filter(|&n| n != 0)
}

// A byte of two hexadecimal digits.
pub fn byte(word: &[u8]) -> Option<u8>
    ensures { result ≡ byte_of word.now }
{
    let &[high, low] = word else {
        return None;
    };
    Some(hex_digit(high)? * 16 + hex_digit(low)?)
}
