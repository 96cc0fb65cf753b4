//! Layer: base.
//! Job: what every layer uses: out of memory, decimal numbers, finite sets as rising lists, the trait `Cover`, and the lemma library.
//! Users: every layer.
//!
//! `NoMemory` is the one answer that no clause explains: every error of the standard library on growing a collection
//! becomes `NoMemory`. A finite set is a strictly rising list over an order; its roots are the members that no other
//! member covers. On sets there is no code but law functions: functions that do nothing and whose contracts hold for
//! every type of items, every covering relation and every canonical order that keep `CoverLaws`. `Cover` is the trait
//! of items that cover one another and have one canonical order, as filters and advertisements do.
#![tactic(auto)]

mod covering;
mod decimal;
mod memory;
mod rising_sets;

pub use covering::Cover;
pub use decimal::{push_int, push_labelled, push_number};
pub use memory::NoMemory;
pub use rising_sets::{
    covered_by_root, difference_of_sets, equality, membership, part_of_set, roots_of_set,
    same_members, set_of_list, union_of_sets, update,
};
