//! The items of a stream, written in one domain as they are read.
mod conversion;
mod convert;
mod converter;

pub use conversion::Conversion;
pub use convert::convert_items;
