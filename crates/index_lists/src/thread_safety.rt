//! Rows may cross threads and be shared by them.
use crate::Rows;

fn crosses<T: Send + Sync>(_value: &T) {}

/// Rows cross threads and are shared by them.
pub fn cross_threads(rows: &Rows) {
    crosses(rows);
}
