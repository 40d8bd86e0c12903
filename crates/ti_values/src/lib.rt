//! The bytes that texts with parameters send for some values, and findings on them.
//!
//! A [`Range`] is what a text such as `cup` is tried over, by the size of the screen. [`values_of`] lists it, and [`sent_for`]
//! returns what the text sends for each of its values: its output without padding marks. On that list [`first_empty`] finds a
//! value for which nothing is sent, and [`first_same`] two for which the same is sent. The cost is that of an expansion for each
//! value, and of a search among as many texts.
#![tactic(auto)]

mod attribute;
mod axes;
mod empty;
mod lacking;
mod limits;
mod list;
mod negative;
mod range;
mod rendition;
mod same;
mod screen;
mod sent;
mod sequence;
mod tried;

pub use attribute::{attributes, first_combination, is_different, is_ignored};
pub use axes::{Axes, numbers_differ};
pub use empty::first_empty;
pub use limits::{
    MOST_BYTES, MOST_COLORS, MOST_COLUMNS, MOST_LINES, MOST_WRITTEN_BYTES, is_short, limits_agree,
};
pub use list::sent_at;
pub use negative::first_negative;
pub use range::{Range, values_of};
pub use same::{Same, first_same};
pub use screen::tried_texts;
pub use sent::{sent_by, sent_for};
pub use sequence::{first_shown, first_unended, has_unended, is_ansi};
pub use tried::Tried;
