//! The callers table and the flat table. They group the frames of a content's call paths by items: `heads`, `ends` and
//! `weights` say what the code knows of each frame (`frames`), an `occurrence` is a frame with the items that it still
//! has, `group` makes the rows of those that begin with one item, and `view` puts them level by level.

mod ends;
mod frames;
mod group;
mod heads;
mod item;
mod occurrence;
mod text;
mod view;
mod weights;

pub use view::{callers, flat};
