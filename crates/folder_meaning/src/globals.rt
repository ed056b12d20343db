// The names that all files of a folder see.

use gd_syntax::Name;
use tree_lists::Items;

/// The names of global classes, and of autoloads, with the numbers of their files.
#[derive(Drop)]
pub struct Globals {
    pub classes: Items<(Name, u32)>,
    pub autoloads: Items<(Name, u32)>,
}
