// A line cut into words at its spaces. Only the line that is lent is read.
ghost use Rattle.std.specs.Prelude.{◌≡◌, [], ◌∷◌, MatchOption};
ghost use Rattle.script.specs.Words.{words};

// The first word of a line, and what stands behind it.
pub fn first_word(line: &[u8]) -> Option<(&[u8], &[u8])>
    ensures { MatchOption result (words line.now ≡ []) (λ p. words line.now ≡ p.0.now ∷ words p.1.now) }
{
    let start = line.iter().position(|&b| b != b' ')?;
    let text = &line[start..];
    let end = text.iter().position(|&b| b == b' ').unwrap_or(text.len());
    Some(text.split_at(end))
}
