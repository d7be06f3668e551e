// Plays a script from standard input.
//
// Only `main` knows the runtime. The others are lent what they use of it: where the script comes from, and where answers go. What is
// large, the disks and the log of what was seen, are arrays of `main` that are lent too. `line` keeps a line as it comes in, and
// `village` carries it out.
#![tactic(auto)]

mod line;
mod village;

ghost use Rattle.std.specs.Prelude.{◌≡◌, ℕ, ◌+◌, ◌-◌, ◌^◌, min, List, take, IfOk, OnOk};
ghost use Rattle.script.specs.Meaning.{command_of};
ghost use Rattle.valley.specs.Lines.{newlines, unended};

use line::{Line, fill};
use memory::{BLANK, Memory};
use script::{Command, parse};
use std::io;
use std::io::Read;
use village::Village;

// The cells of sixteen disks of 192 sectors.
const CELLS: usize = 3072;

// The words of the log: a script of 50,000 requests takes nine words for each, with any number of turns between.
const LOG: usize = 460000;

// What a line says, of which the first 256 bytes were kept.
fn command(line: &Line) -> Option<Command>
    ensures { (whole : List ℕ) → line.now.items ≡ take 256 whole → result ≡ command_of whole }
{
    parse(line.as_slice())
}

impl<P: Print> Village<'_, P> {
    // Carries out the line of this number.
    fn answer(&mut self, line: &Line, number: u64) -> io::Result<()> {
        match command(line) {
            Some(c) => self.carry_out(c, number),
            None => self.answer_unknown(number),
        }
    }

    // Plays the lines that end among these bytes, of which the first has this number, and answers the number of the line behind
    // them. What stands behind the last newline is kept in `line`.
    fn play_some(&mut self, bytes: &[u8], line: &mut Line, first: u64) -> io::Result<u64>
        ensures number { IfOk result (λ n. n ≡ min (first + newlines bytes.now) (2 ^ 64 - 1)) }
        ensures after { (begun : List ℕ) → line.old.items ≡ take 256 begun → OnOk result (line.new.items ≡ take 256 (unended begun bytes.now)) }
    {
        let mut number = first;
        let mut rest = bytes;
        while let Some(behind) = fill(line, rest) {
            self.answer(line, number)?;
            line.clear();
            number = number.saturating_add(1);
            rest = behind;
        }
        Ok(number)
    }

    // Plays a script to its end, a block at a time. So many blocks no script has, and every loop ends.
    fn play(&mut self, input: &mut impl Read, block: &mut [u8]) -> io::Result<()> {
        let mut line = Line::new();
        let mut number = 1;
        for _ in 0..u64::MAX {
            let n = input.read(block)?;
            if n == 0 {
                break;
            }
            number = self.play_some(&block[0..n], &mut line, number)?;
        }
        if line.is_empty() {
            Ok(())
        } else {
            self.answer(&line, number)
        }
    }
}

fn main(rt: HostRuntime) -> io::Result<()> {
    let mut cells = [BLANK; CELLS];
    let mut log = [0; LOG];
    let mut block = [0; 8192];
    let memory = Memory::new(&mut cells, &mut log, &[]);
    let mut input = rt.stdin();
    Village::new(&rt, memory).play(&mut input, &mut block)
}
