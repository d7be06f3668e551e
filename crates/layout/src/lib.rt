// What lies where on the disks: which member has which column of a stripe, where a sector of the store is, and who the members are.
//
// Nothing here touches a disk, and nothing is stored outside the values that are passed: these are functions on numbers and small
// structs, so that what is proved of them is proved once, below everything that asks disks. Of numbers, an `as` is between `usize` and
// another size, for which there is no `From`, or to fewer bits under a bound that a contract gives.
#![tactic(auto)]

mod members;
mod place;
mod superblock;

pub use members::{Marks, Members};
pub use place::{Location, index_of, locate, no_two_sectors_in_one_place, place_of, places_turn};
pub use superblock::{Rebuild, Superblock, generation_of, read_again};
