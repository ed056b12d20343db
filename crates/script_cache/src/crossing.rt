//! A cache may be shared by threads where the work, its results and its project may.
use crate::cache::ScriptCache;
use stage_core::{StageOut, StageWork};

fn is_shared<T: Sync>(_value: &T) {}

/// A cache is shared by threads.
pub fn cache_is_shared<W: StageWork + Sync>(cache: &ScriptCache<W>)
where
    W::Out: Send + Sync,
    <W::Out as StageOut>::Project: Send + Sync,
{
    is_shared(cache);
}
