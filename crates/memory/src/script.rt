// What is asked next: a script in words, four to a step.
//
// Nothing is touched here. The four words of a step are what it is, and three numbers:
//
// | what | step |
// |---|---|
// | 0 n | nothing is asked for n calls, this one among them |
// | 1 tag s | read sector s |
// | 2 tag s w | write sector s: each of its 64 words is w |
// | 3 tag | flush |
// | 4 tag | size |
// | 5 tag e | add disk e |
// | 6 tag d e | put disk e in the place of disk d |
// | 7 d n | disk d dies at the n-th thing asked from here on |
// | 8 n seed | the power goes at the n-th thing asked from here on |
//
// Anything else is a step at which nothing is asked. A tag or a disk that doesn't fit 32 bits counts as 4294967295.
ghost use Rattle.std.specs.Prelude.{◌≡◌, ◌+◌, ◌<◌, ◌≤◌, None, IfSome, length, drop, min, slice_index};
ghost use Rattle.memory.specs.Steps.{step_of, rest_after};

use crate::fate::Fate;
use store::Ask;

// What a step of the script does: nothing is asked for so long; something is asked, with words that are all one; something is planned.
// `Ask` of the store can only be copied, so this can too.
#[derive(Clone, Copy)]
pub enum Step {
    Rest(u64),
    Asks(u32, Ask, u64),
    Plans(u64, Fate),
}

// The words of the script, those of them that are still to come, and how long nothing is asked from here.
#[derive(Clone, Copy)]
pub struct Script<'a> {
    words: &'a [u64],
    ahead: &'a [u64],
    rest: u64,
}

// A tag or a disk.
fn small(x: u64) -> u32
    ensures { result ≡ min x 4294967295 }
{
    u32::try_from(x).unwrap_or(u32::MAX)
}

// What the four words of a step say. Others write them, so each kind has its number.
impl From<[u64; 4]> for Step {
    ghost from_gives = { λ w s. s ≡ step_of (slice_index w 0) (slice_index w 1) (slice_index w 2) (slice_index w 3) };

    fn from(words: [u64; 4]) -> Step {
        let [what, a, b, c] = words;
        match what {
            0 => Step::Rest(a),
            1 => Step::Asks(small(a), Ask::Read(b), 0),
            2 => Step::Asks(small(a), Ask::Write(b), c),
            3 => Step::Asks(small(a), Ask::Flush, 0),
            4 => Step::Asks(small(a), Ask::Size, 0),
            5 => Step::Asks(small(a), Ask::Add(small(b)), 0),
            6 => Step::Asks(small(a), Ask::Replace(small(b), small(c)), 0),
            7 => Step::Plans(b, Fate::Dies(small(a))),
            8 => Step::Plans(a, Fate::Cut(b)),
            _ => Step::Rest(1),
        }
    }
}

impl<'a> Script<'a> {
    // All of it is still to come.
    pub fn new(words: &'a [u64]) -> Script<'a>
        ensures { (result.words.now ≡ words.now) × ((result.ahead.now ≡ words.now) × (result.rest ≡ 0)) }
    {
        Script {
            words,
            ahead: words,
            rest: 0,
        }
    }

    // It begins anew.
    pub fn restart(&mut self)
        ensures { (self.new.words.now ≡ self.old.words.now) × ((self.new.ahead.now ≡ self.old.words.now) × (self.new.rest ≡ 0)) }
    {
        *self = Script::new(self.words);
    }

    // The next step; none while nothing is asked, and at the end.
    pub fn next_step(&mut self) -> Option<Step>
        ensures rests { 0 < self.old.rest → (result ≡ None) × ((self.new.ahead.now ≡ self.old.ahead.now) × (self.new.rest + 1 ≡ self.old.rest)) }
        ensures step { IfSome result (λ s. (4 ≤ length self.old.ahead.now) × ((s ≡ step_of (slice_index self.old.ahead.now 0) (slice_index self.old.ahead.now 1) (slice_index self.old.ahead.now 2) (slice_index self.old.ahead.now 3)) × (self.new.ahead.now ≡ drop 4 self.old.ahead.now))) }
        ensures then { IfSome result (λ s. self.new.rest ≡ rest_after s) }
        ensures ends { result ≡ None → self.old.rest ≡ 0 → (length self.old.ahead.now < 4) × (self.new ≡ self.old) }
        ensures words { self.new.words.now ≡ self.old.words.now }
    {
        if self.rest > 0 {
            self.rest -= 1;
            return None;
        }
        let [what, a, b, c, ahead @ ..] = self.ahead else {
            return None;
        };
        self.ahead = ahead;
        let step = Step::from([*what, *a, *b, *c]);
        if let Step::Rest(n) = step {
            self.rest = n.saturating_sub(1);
        }
        Some(step)
    }
}
