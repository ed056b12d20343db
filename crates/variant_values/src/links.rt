ghost use Rattle.std.specs.Prelude.{◌≡◌, ◌∷◌, ◌++◌, [], filter, not, IfOk, OnOk, OnErr};
ghost use Rattle.std.specs.List.{list_any};
ghost use Rattle.variant_values.specs.Links.{is_connection, targets_of};

use crate::cells::{Connection, Connections};
use crate::texts::Str;
use crate::values::Serial;
use std::alloc::{AllocError, Global};

impl Connections {
    pub fn new(alloc: Global) -> Connections
        ensures { result ≡ [] }
    {
        Connections {
            rows: Vec::new(alloc),
        }
    }

    pub fn as_slice(&self) -> &[Connection]
        ensures { result.now ≡ self.now }
    {
        self.rows.as_slice()
    }

    pub fn push(&mut self, row: Connection) -> Result<(), AllocError>
        ensures ok { OnOk result (self.new ≡ self.old ++ row ∷ []) }
        ensures err { OnErr result (self.new ≡ self.old) }
    {
        self.rows.push(row)?;
        Ok(())
    }

    /// Whether the signal has that connection.
    pub fn has(&self, signal: &Str, to: Serial, method: &Str) -> bool
        ensures { result ≡ list_any (is_connection signal.now to method.now) self.now }
    {
        for row in self.rows.iter() {
            if is_connection(row, signal, to, method) {
                return true;
            }
        }
        false
    }

    /// Drops that connection of the signal.
    pub fn remove(&mut self, signal: &Str, to: Serial, method: &Str)
        ensures { self.new ≡ filter (λ c. not (is_connection signal.now to method.now c)) self.old }
    {
        let mut at = 0;
        while at < self.rows.len() {
            if is_connection(&self.rows[at], signal, to, method) {
                self.rows.remove(at);
            } else {
                at += 1;
            }
        }
    }

    /// The targets of a signal and their methods, in order.
    pub fn targets(&self, alloc: Global, signal: &Str) -> Result<Vec<(Serial, Str)>, AllocError>
        ensures { IfOk result (λ found. found.items ≡ targets_of signal.now self.now) }
    {
        let mut found = Vec::new(alloc);
        for row in self.rows.iter() {
            push_target(&mut found, row, signal)?;
        }
        Ok(found)
    }
}

fn push_target(
    found: &mut Vec<(Serial, Str)>,
    row: &Connection,
    signal: &Str,
) -> Result<(), AllocError>
    ensures { OnOk result (found.new.items ≡ found.old.items ++ targets_of signal.now (row.now ∷ [])) }
{
    if row.signal == *signal {
        let method = row.method.clone()?;
        found.push((row.target, method))?;
    }
    Ok(())
}

fn is_connection(row: &Connection, signal: &Str, to: Serial, method: &Str) -> bool
    ensures { result ≡ is_connection signal.now to method.now row.now }
{
    row.signal == *signal && (row.target.0 == to.0 && row.method == *method)
}
