// The language of a script: one line, and the command that it says.
//
// Nothing here is touched but the bytes that are lent. `split` cuts a line into words, `value` reads a word as a number or a
// byte, and `parse` puts the two together. What each must answer is written in specs/: Words, Numbers and Meaning.
#![tactic(auto)]

mod split;
mod value;

ghost use Rattle.std.specs.Prelude.{◌≡◌};
ghost use Rattle.script.specs.Meaning.{one_word, two_words, three_words, four_words, command_of};

use split::first_word;
use value::{byte, large, place, small};

// What a line asks for. Who carries it out answers for a tag or a disk that there isn't.
#[derive(Clone, Copy, PartialEq, Eq, Debug)]
pub enum Command {
    Write { tag: u32, sector: u64, byte: u8 },
    Read { tag: u32, sector: u64 },
    Flush { tag: u32 },
    Size { tag: u32 },
    Add { tag: u32, disk: u32 },
    Replace { tag: u32, old: u32, new: u32 },
    Turn { turns: u64 },
    Die { disk: u32 },
    DieAt { disk: u32, ask: u64 },
    Cut { ask: u64, seed: u64 },
    Until { tag: u32 },
    New,
}

// The longest line that can be a command.
const LONGEST: usize = 255;

// `new`
fn one_word(a: &[u8]) -> Option<Command>
    ensures { result ≡ one_word a.now }
{
    match a {
        b"new" => Some(Command::New),
        _ => None,
    }
}

// `turn 20`, `die 3`, `until 2`, `1 flush`, `1 size`
fn two_words(a: &[u8], b: &[u8]) -> Option<Command>
    ensures { result ≡ two_words a.now b.now }
{
    match a {
        b"turn" => large(b).map(|turns| Command::Turn { turns }),
        b"die" => small(b).map(|disk| Command::Die { disk }),
        b"until" => small(b).map(|tag| Command::Until { tag }),
        _ => match b {
            b"flush" => small(a).map(|tag| Command::Flush { tag }),
            b"size" => small(a).map(|tag| Command::Size { tag }),
            _ => None,
        },
    }
}

// `die 3 50`, `cut 9 1234`, `0 read 5`, `2 add 4`
fn three_words(a: &[u8], b: &[u8], c: &[u8]) -> Option<Command>
    ensures { result ≡ three_words a.now b.now c.now }
{
    match a {
        b"die" => Some(Command::DieAt {
            disk: small(b)?,
            ask: place(c)?,
        }),
        b"cut" => Some(Command::Cut {
            ask: place(b)?,
            seed: large(c)?,
        }),
        _ => match b {
            b"read" => Some(Command::Read {
                tag: small(a)?,
                sector: large(c)?,
            }),
            b"add" => Some(Command::Add {
                tag: small(a)?,
                disk: small(c)?,
            }),
            _ => None,
        },
    }
}

// `0 write 5 7a`, `2 replace 1 5`
fn four_words(a: &[u8], b: &[u8], c: &[u8], d: &[u8]) -> Option<Command>
    ensures { result ≡ four_words a.now b.now c.now d.now }
{
    match b {
        b"write" => Some(Command::Write {
            tag: small(a)?,
            sector: large(c)?,
            byte: byte(d)?,
        }),
        b"replace" => Some(Command::Replace {
            tag: small(a)?,
            old: small(c)?,
            new: small(d)?,
        }),
        _ => None,
    }
}

// The command that a line, without its end, says.
pub fn parse(line: &[u8]) -> Option<Command>
    ensures { result ≡ command_of line.now }
{
    if line.len() > LONGEST {
        return None;
    }
    let (a, rest) = first_word(line)?;
    let Some((b, rest)) = first_word(rest) else {
        return one_word(a);
    };
    let Some((c, rest)) = first_word(rest) else {
        return two_words(a, b);
    };
    let Some((d, rest)) = first_word(rest) else {
        return three_words(a, b, c);
    };
    match first_word(rest) {
        None => four_words(a, b, c, d),
        Some(_) => None,
    }
}

#[cfg(test)]
mod tests;
