// Where a column of a stripe and a sector of the store are: functions on numbers. They touch nothing.
ghost use Rattle.std.specs.Prelude.{◌≡◌, ℕ, ◌+◌, ◌*◌, ◌<◌, ◌≤◌};
ghost use Rattle.layout.specs.Places.{place, index, column_of, stripe_of, PlacesTurn, OneHome};

// Where a sector of the store is: a data column, from 0, of a stripe.
#[derive(Clone, Copy, PartialEq, Eq, Debug)]
pub struct Location {
    pub column: usize,
    pub stripe: u64,
}

// The place of the member that has column i of stripe r.
#[tactic(auto, unfolding(crate::specs::Places::place))]
pub fn place_of(i: usize, r: u64) -> usize
    ensures { result ≡ place i r }
{
    if i < 4 { (i + (r % 4) as usize) % 4 } else { i }
}

// The column that the member at place p has of stripe r.
#[tactic(auto, unfolding(crate::specs::Places::index))]
pub fn index_of(p: usize, r: u64) -> usize
    ensures { result ≡ index p r }
{
    if p < 4 {
        (p + 3 * (r % 4) as usize) % 4
    } else {
        p
    }
}

// Where sector s of the store is, if there are so many stripes.
#[tactic(auto, unfolding(crate::specs::Places::column_of, crate::specs::Places::stripe_of))]
pub fn locate(s: u64, stripes: u64) -> Location
    requires { 0 < stripes }
    ensures { (result.column ≡ column_of stripes s) × (result.stripe ≡ stripe_of stripes s) }
{
    Location {
        column: (s / stripes) as usize,
        stripe: s % stripes,
    }
}

// Places and columns are each other's inverse, among any number of members from four on.
pub fn places_turn() -> u8
    ensures { PlacesTurn }
{
    0
}

// No two sectors of the store are ever in one place, however many members there are.
pub fn no_two_sectors_in_one_place() -> u8
    ensures { OneHome }
{
    0
}
