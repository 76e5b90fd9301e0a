//! Where a worker stands, what it remembers, and how processors go on by themselves.
#![tactic(auto)]

mod alone;
mod as_one;
mod asked;
mod block;
mod claim_plain;
mod entries;
mod lagging;
mod load_in;
mod memo;
mod plain;
mod post;
mod row_walk;
mod rows;
mod span;
mod standing;
mod stores;
mod together;
mod turn_in;

pub use alone::own_alone;
pub use as_one::{Standing, Together};
pub use asked::{fetch, is_due, is_load, turn_by};
pub use block::Block;
pub use entries::set_entry;
pub use load_in::{Claims, LoadIn, Loads};
pub use memo::{Formed, Memo, Memory, Own, Stand, store_of};
pub use plain::forget;
pub use post::{Leaf, Post, within_limits};
pub use stores::Stores;
pub use turn_in::{known_in, load_of, stands_in, take_turn, take_value};
