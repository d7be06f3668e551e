// The arithmetic by which up to two lost columns of a stripe are had again. It touches no disk and no heap: all that it reads and writes is lent to it.
#![tactic(auto)]

mod column;
mod element;
pub mod laws;
mod lent;
mod missing;
mod part;
mod product;
mod raising;
mod stripe;

pub use column::Sector;
pub use element::Element;
pub use lent::{Misfit, try_make_parity, try_mend, try_parity_by_table};
pub use missing::Missing;
pub use part::Part;
pub use product::{Doubles, times};
pub use raising::{Doubling, Plain, Raising, Shifts, Table};
pub use stripe::{make_parity, mend, parity, put};
