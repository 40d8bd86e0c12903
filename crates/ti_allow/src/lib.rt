//! Which functions of a terminal a string may send.
//!
//! A table has the functions that terminals of today share and that do no harm where they stand. [`is_allowed`] looks a function up in
//! it, and [`beyond_table`] reports what a string can send beside it, on all its paths: if it reports nothing, a terminal takes nothing
//! else of the string, whatever the parameters are. [`effect_of`] names what a function does where it may not stand.
//!
//! Time is linear in the string, for each of twelve ways to receive it.
#![tactic(auto)]

mod allowed;
mod beyond;
mod effect;
mod effects;
mod narrow;
mod plain;
mod row;
mod standing;
mod table;

pub use allowed::ALLOWED;
pub use beyond::{Found, beyond_table};
pub use effect::{Effect, EffectRow};
pub use plain::{doubled, place_in_text, plain_beyond_table};
pub use row::{Asking, Head, Numbers, Row, Span, Values};
pub use standing::Standing;
pub use table::{effect_of, is_allowed};
