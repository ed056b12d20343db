//! The image of a folder: its files by number and by path.
#![tactic(auto)]

mod image;

pub use image::Image;
