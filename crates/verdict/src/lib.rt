// The verdicts on one expression. The entry points are in `entry.rt`; the functions over any words in which an
// expression stands are in the crate `purity`.
#![tactic(auto)]

mod entry;

pub use entry::{
    is_definitely_bool, is_iterable_empty, is_pure_infallible, is_pure_infallible_to_bool,
};
