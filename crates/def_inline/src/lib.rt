// What may be inlined. The entry points are in `entry.rt`; `body.rt` and `expr.rt` have the functions over words in
// which a rule or an expression stands, with the Rust's names.
#![tactic(auto)]

pub mod body;
mod entry;
pub mod expr;

pub use body::InlineDefBody;
pub use entry::{inline_def_body, is_safe_to_inline_expr};
pub use expr::Safety;
