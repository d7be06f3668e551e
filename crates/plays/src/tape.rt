// What was seen in a play, as the words of the log tell it. An event's last word is its head, so the log is read from its end.
ghost use Rattle.std.specs.Prelude.{◌<◌, ◌≤◌, length, IfSome};

use arrayvec::ArrayVec;

// What is asked. The log has a number for each.
#[derive(Clone, Copy, PartialEq, Eq, Debug)]
pub enum Kind {
    Read,
    Write,
    Other,
}

// A request: its tag, kind, sector, and its words if all 64 are one.
#[derive(Clone, Copy, PartialEq, Eq, Debug)]
pub struct Request {
    pub tag: u64,
    pub kind: Kind,
    pub sector: u64,
    pub word: Option<u64>,
}

// What was seen. An `ArrayVec` fills its free places with the default.
#[derive(Clone, Copy, PartialEq, Eq, Debug, Default)]
pub enum Event {
    #[default]
    Passed,
    Died,
    Cut,
    Asked(Request),
    Refused(Request),
    Told(Request),
}

impl From<u64> for Kind {
    fn from(number: u64) -> Kind {
        match number {
            0 => Kind::Read,
            1 => Kind::Write,
            _ => Kind::Other,
        }
    }
}

// The request at the end of these words, whose head says this of it, and the words before it.
fn last_request(words: &[u64], tag: u64, body: u64) -> Option<(Request, &[u64])>
    ensures { IfSome result (λ r. length r.1.now ≤ length words.now) }
{
    let (sector, rest) = words.split_last()?;
    let kind = Kind::from(body % 8);
    if body / 8 % 2 == 0 {
        let (word, before) = rest.split_last()?;
        let request = Request {
            tag,
            kind,
            sector: *sector,
            word: Some(*word),
        };
        return Some((request, before));
    }
    let start = rest.len().checked_sub(64)?;
    let request = Request {
        tag,
        kind,
        sector: *sector,
        word: None,
    };
    Some((request, &rest[..start]))
}

// The last event of these words, and the words before it. Between a request that was refused or told and its head stands a number.
fn last_event(words: &[u64]) -> Option<(Event, &[u64])>
    ensures { IfSome result (λ r. length r.1.now < length words.now) }
{
    let (head, rest) = words.split_last()?;
    match head % 8 {
        0 => Some((Event::Passed, rest)),
        1 => Some((Event::Died, rest)),
        2 => Some((Event::Cut, rest)),
        3 => {
            let (asked, before) = last_request(rest, head / 128, head / 8)?;
            Some((Event::Asked(asked), before))
        }
        4 => {
            let (_, rest) = rest.split_last()?;
            let (refused, before) = last_request(rest, head / 128, head / 8)?;
            Some((Event::Refused(refused), before))
        }
        5 => {
            let (_, rest) = rest.split_last()?;
            let (told, before) = last_request(rest, head / 512, head / 8)?;
            Some((Event::Told(told), before))
        }
        _ => None,
    }
}

// The words up to the last that is not a nought: what is behind it was never written.
fn written(log: &[u64]) -> &[u64] {
    let end = log
        .iter()
        .rposition(|&word| word != 0)
        .map_or(0, |last| last + 1);
    &log[..end]
}

// The events of so many words are no more than those words.
pub type Events<const WORDS: usize> = ArrayVec<Event, WORDS>;

// The events of the log, the earliest first; none where it can't be read.
pub fn events<const WORDS: usize>(log: &[u64; WORDS]) -> Option<Events<WORDS>> {
    let mut events = ArrayVec::new();
    let mut rest = written(log);
    while !rest.is_empty() {
        let (event, before) = last_event(rest)?;
        events.try_push(event).ok()?;
        rest = before;
    }
    events.as_mut_slice().reverse();
    Some(events)
}
