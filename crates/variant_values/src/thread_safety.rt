//! What may cross threads and be shared by them.
use crate::texts::Str;
use crate::values::{Key, Value};

fn crosses<T: Send + Sync>(_value: &T) {}

/// Values, keys and texts cross threads, and are shared by them.
pub fn cross_threads(value: &Value, key: &Key, text: &Str) {
    crosses(value);
    crosses(key);
    crosses(text);
}
