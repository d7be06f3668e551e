// What a line of the script does to the disks, and what is answered.
//
// Nothing is touched here but the memory that is lent; answers go where they are told to. No store is played on them yet: `turn` is where it
// will have its turns, and the commands that need it are answered `line K?`.
use memory::Memory;
use script::Command;
use std::io;

// How many turns pass at most until a tag is told.
const PATIENCE: u64 = 20000;

// What has passed in a turn: nothing, for there is no store; nothing that is told; this tag was told; the power went and came back.
// Not an `Option` for the first: one match tells the four apart.
#[derive(Clone, Copy, PartialEq, Eq, Debug)]
pub enum Passed {
    NoStore,
    Quiet,
    Told(u32),
    Cut,
}

// The disks of the village, and where what is said of them goes.
#[derive(Drop)]
pub struct Village<'a, P: Print> {
    out: &'a P,
    memory: Memory<'a>,
}

impl<'a, P: Print> Village<'a, P> {
    pub fn new(out: &'a P, memory: Memory<'a>) -> Village<'a, P> {
        Village { out, memory }
    }
}

impl<P: Print> Village<'_, P> {
    // Answers each death that was planned and could not be when it was due.
    fn answer_spared(&mut self) -> io::Result<()> {
        for _ in 0..self.memory.spared() {
            println!(self.out; "kept")?;
        }
        Ok(())
    }

    // One turn of the store.
    fn turn(&mut self) -> io::Result<Passed> {
        self.answer_spared()?;
        Ok(Passed::NoStore)
    }

    // So many turns pass.
    fn pass(&mut self, turns: u64) -> io::Result<()> {
        for _ in 0..turns {
            if self.turn()? == Passed::NoStore {
                break;
            }
        }
        Ok(())
    }

    // Turns pass until the tag is told or the power goes.
    fn wait(&mut self, tag: u32) -> io::Result<()> {
        for _ in 0..PATIENCE {
            match self.turn()? {
                Passed::Quiet => {}
                Passed::Told(t) if t != tag => {}
                Passed::Told(_) | Passed::NoStore | Passed::Cut => break,
            }
        }
        Ok(())
    }

    // Answers a line that is no command, or whose command cannot be carried out.
    pub fn answer_unknown(&self, number: u64) -> io::Result<()> {
        println!(self.out; "line {number}?")
    }

    // Carries out the command of the line of this number; those that are left need a store.
    pub fn carry_out(&mut self, command: Command, number: u64) -> io::Result<()> {
        match command {
            Command::New => self.memory.restart(),
            Command::Die { disk } => {
                if self.memory.kill(disk).is_err() {
                    println!(self.out; "kept")?;
                }
            }
            Command::DieAt { disk, ask } => {
                if self.memory.plan_death(disk, ask).is_err() {
                    return self.answer_unknown(number);
                }
            }
            Command::Cut { ask, seed } => {
                if self.memory.plan_cut(ask, seed).is_err() {
                    return self.answer_unknown(number);
                }
            }
            Command::Turn { turns } => self.pass(turns)?,
            Command::Until { tag } => self.wait(tag)?,
            _ => return self.answer_unknown(number),
        }
        Ok(())
    }
}
