//! The run of a project over its folder.
#![tactic(auto)]

mod image;

pub use image::{
    ImageError, ScriptImageError, read_image, read_script_image, what_is_found_is_determined,
};
