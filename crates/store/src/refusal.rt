// Why what is asked is turned away. It touches nothing.
ghost use Rattle.std.specs.Prelude.{◌≡◌, Some};

use std::error::Error;
use std::fmt;

#[derive(Clone, Copy, PartialEq, Eq, Debug)]
pub enum Refusal {
    // the tag is none of the eight, or something is asked under it
    Tag,
    // there is no such sector
    Sector,
    // it isn't built
    Unbuilt,
}

// The number by which it is told.
impl From<Refusal> for u32 {
    ghost use Rattle.store.specs.Tags.{number_of};

    ghost from_gives = { λ why n. n ≡ number_of why };

    fn from(why: Refusal) -> u32 {
        match why {
            Refusal::Tag => 1,
            Refusal::Sector => 3,
            Refusal::Unbuilt => 9,
        }
    }
}

impl fmt::Display for Refusal {
    ghost use Rattle.store.specs.Tags.{text_of};

    ghost output = { λ why. Some (text_of why) };

    fn fmt<W: fmt::Write>(&self, f: &mut fmt::Formatter<W>) -> fmt::Result {
        f.write_str(match self {
            Refusal::Tag => "no such tag, or something is asked under it",
            Refusal::Sector => "no such sector",
            Refusal::Unbuilt => "not built",
        })
    }
}

impl Error for Refusal {}
