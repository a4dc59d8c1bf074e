//! A reader of text that lends out words with their places.
#![tactic(auto)]

mod fault;
mod place;
mod reader;
mod reading;
mod word;

pub use fault::TextFault;
pub use place::Place;
pub use reader::Reader;
pub use word::Word;
