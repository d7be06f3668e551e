// A line of the script as it comes in, piece by piece. The first 256 bytes are kept: a longer line is no command, whatever
// follows. Nothing is touched but the line and the bytes that are lent.
ghost use Rattle.std.specs.Prelude.{◌≡◌, ℕ, List, ◌∷◌, ◌++◌, take, MatchOption};
ghost use Rattle.valley.specs.Lines.{line_of};

use arrayvec::ArrayVec;
use std::io::Write;

pub type Line = ArrayVec<u8, 256>;

// These bytes too, as far as there is room.
pub fn keep(line: &mut Line, bytes: &[u8])
    ensures { (begun : List ℕ) → line.old.items ≡ take 256 begun → line.new.items ≡ take 256 (begun ++ bytes.now) }
{
    let _ = line.write(bytes);
}

// Takes the bytes before the first newline, as far as there is room, and answers those behind it, if there is one.
pub fn fill<'a>(line: &mut Line, bytes: &'a [u8]) -> Option<&'a [u8]>
    ensures after { (begun : List ℕ) → line.old.items ≡ take 256 begun → line.new.items ≡ take 256 (begun ++ line_of bytes.now) }
    ensures behind { MatchOption result (bytes.now ≡ line_of bytes.now) (λ rest. bytes.now ≡ line_of bytes.now ++ 10 ∷ rest.now) }
{
    match bytes.iter().position(|&b| b == b'\n') {
        Some(n) => {
            keep(line, &bytes[..n]);
            Some(&bytes[n + 1..])
        }
        None => {
            keep(line, bytes);
            None
        }
    }
}
