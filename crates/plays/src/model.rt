// What eight sectors may hold, by all that was told: a set of small numbers for each. A write that is under way when the power goes
// may have been done or not; what was told holds.
use crate::tape::{Event, Kind, Request};

// The sectors that are played with: two and two in one stripe, the first and the last ones, and two between.
pub const SECTORS: [u64; 8] = [0, 64, 1, 65, 63, 127, 2, 100];

// What stands for words that are not all one: no sector may hold it.
const MIXED: u64 = 99;

// A set of numbers below 32.
#[derive(Clone, Copy, PartialEq, Eq, Debug)]
struct Values(u64);

// A write that is under way: to which of the sectors, and what.
#[derive(Clone, Copy, PartialEq, Eq, Debug)]
struct Writing {
    sector: usize,
    value: u64,
}

// What each of the sectors may hold, and by tags the writes that are under way.
#[derive(Clone, Copy, PartialEq, Eq, Debug)]
pub struct Model {
    may: [Values; 8],
    writing: [Option<Writing>; 8],
}

impl Values {
    fn only(v: u64) -> Values {
        Values(1 << (v % 32))
    }

    fn contains(self, v: u64) -> bool {
        v < 32 && self.0 & Values::only(v).0 != 0
    }

    fn insert(&mut self, v: u64) {
        self.0 |= Values::only(v).0;
    }
}

impl Model {
    // All of them hold noughts.
    pub fn blank() -> Model {
        Model {
            may: [Values::only(0); 8],
            writing: [None; 8],
        }
    }

    // The power has gone: each write that was under way is done or not.
    fn cut(&mut self) {
        for writing in self.writing.iter_mut() {
            if let Some(Writing { sector, value }) = writing.take() {
                if let Some(may) = self.may.get_mut(sector) {
                    may.insert(value);
                }
            }
        }
    }

    // The write that is under way under a tag, if there is such a tag.
    fn under(&mut self, tag: u64) -> Option<&mut Option<Writing>> {
        self.writing.get_mut(usize::try_from(tag).ok()?)
    }

    // Something is asked: only what is written matters here. None where there is no such sector.
    fn asked(&mut self, request: Request) -> Option<()> {
        let sector = SECTORS.iter().position(|&s| s == request.sector)?;
        if request.kind == Kind::Write {
            if let Some(writing) = self.under(request.tag) {
                *writing = Some(Writing {
                    sector,
                    value: request.word.unwrap_or(MIXED),
                });
            }
        }
        Some(())
    }

    // Something is told. None where that can't be: what is read was never there, or was not asked.
    fn told(&mut self, request: Request) -> Option<()> {
        let sector = SECTORS.iter().position(|&s| s == request.sector)?;
        let writing = self.under(request.tag)?;
        match request.kind {
            Kind::Write => {
                let value = writing.take()?.value;
                *self.may.get_mut(sector)? = Values::only(value);
                Some(())
            }
            Kind::Read => {
                let may = self.may.get_mut(sector)?;
                let word = request.word.unwrap_or(MIXED);
                let good = may.contains(word);
                *may = Values::only(word);
                good.then_some(())
            }
            Kind::Other => None,
        }
    }

    // What comes of an event. False where it can't be, or something was refused.
    pub fn sees(&mut self, event: Event) -> bool {
        match event {
            Event::Passed | Event::Died => true,
            Event::Cut => {
                self.cut();
                true
            }
            Event::Asked(request) => self.asked(request).is_some(),
            Event::Refused(_) => false,
            Event::Told(request) => self.told(request).is_some(),
        }
    }
}
