// Copies of entries.
ghost use Rattle.std.specs.Prelude.{◌≡◌, IfOk, OnErr, OnOk};
ghost use Rattle.variant_values.specs.Keys.{HasKeysOnce, with_entry};

use std::alloc::{AllocError, Global};
use variant_values::entries::Entries;
use variant_values::values::{Key, Value};

/// Puts a copy of an entry in. Where memory runs out, the entries stay as they are.
pub fn enter_copy(entries: &mut Entries, key: &Key, value: &Value) -> Result<(), AllocError>
    ensures ok { OnOk result (entries.new ≡ with_entry entries.old key.now value.now) }
    ensures err { OnErr result (entries.new ≡ entries.old) }
{
    entries.insert(key.clone()?, value.clone()?)?;
    Ok(())
}

/// The same entries. Containers inside stay shared.
pub fn copied_entries(alloc: Global, entries: &Entries) -> Result<Entries, AllocError>
    requires { HasKeysOnce entries.now }
    ensures { IfOk result (λ copy. copy ≡ entries.now) }
{
    let mut copy = Entries::new(alloc);
    for i in 0..entries.len() {
        let (key, value) = entries.entry_at(i);
        enter_copy(&mut copy, key, value)?;
    }
    Ok(copy)
}
