// What may cross threads and be shared by them.

use crate::facts::FileFacts;
use crate::globals::Globals;

fn crosses<T: Send + Sync>(_value: &T) {}

/// The facts of files, and the names that all files see, cross threads, and are shared by them.
pub fn cross_threads(facts: &FileFacts, globals: &Globals) {
    crosses(facts);
    crosses(globals);
}
