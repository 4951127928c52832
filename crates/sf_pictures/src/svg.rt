//! The parts of pictures: texts, paths and boxes, and what a picture begins and ends with.

mod escaping;
mod marks;

pub(crate) use escaping::{cut, text_width};
pub(crate) use marks::{begin, end, path, rect, text};
