// A text that is written piece by piece, up to the length of a string.
ghost use Rattle.std.specs.Prelude.{◌≡◌, ◌≤◌, ◌++◌, [], length, codes, string_bytes, decimal, IfOk};
ghost use Rattle.std.specs.Fmt.{signed_decimal};
ghost use Rattle.std.specs.List.{repeat};
ghost use Rattle.variant_values.specs.Operators.{longest};
ghost use Rattle.variant_values.specs.ValueTexts.{truth_text, quoted};
ghost use Rattle.string_calls.specs.Writes.{Writes};

use itoa::Buffer;
use std::alloc::{AllocError, Global};
use std::marker::Model;
use variant_values::faults::{RunFault, Trouble};
use variant_values::operators::LONGEST_STRING;
use variant_values::texts::Str;

/// A text of at most as many bytes as a string may have. Contracts see its bytes.
#[derive(Drop)]
pub struct StringBuilder {
    text: String,
}

impl Model for StringBuilder {
    ghost use Rattle.std.specs.Prelude.{ℕ, List, ◌≤◌, length, string_bytes};
    ghost use Rattle.variant_values.specs.Operators.{longest};

    ghost Value = { List ℕ };

    ghost view = { λ b. string_bytes b.text };

    ghost invariant = { λ b. length (string_bytes b.text) ≤ longest };
}

impl StringBuilder {
    pub fn new(alloc: Global) -> StringBuilder
        ensures { result ≡ [] }
    {
        StringBuilder {
            text: String::new(alloc),
        }
    }

    pub fn write(&mut self, text: &str) -> Result<(), Trouble>
        ensures { Writes self.old self.new result text.now }
    {
        if text.len() > LONGEST_STRING - self.text.len() {
            return Err(Trouble::Fault(RunFault::TooLong));
        }
        self.text.push_str(text)?;
        Ok(())
    }

    /// A text between two others.
    pub fn write_between(&mut self, front: &str, text: &str, back: &str) -> Result<(), Trouble>
        ensures { Writes self.old self.new result (front.now ++ text.now ++ back.now) }
    {
        self.write(front)?;
        self.write(text)?;
        self.write(back)
    }

    /// One text after the other.
    pub fn write_both(&mut self, first: &str, second: &str) -> Result<(), Trouble>
        ensures { Writes self.old self.new result (first.now ++ second.now) }
    {
        self.write(first)?;
        self.write(second)
    }

    /// A text so many times.
    pub fn write_repeated(&mut self, text: &str, n: usize) -> Result<(), Trouble>
        ensures { Writes self.old self.new result (repeat n text.now) }
    {
        for _ in 0..n {
            self.write(text)?;
        }
        Ok(())
    }

    pub fn write_truth(&mut self, b: bool) -> Result<(), Trouble>
        ensures { Writes self.old self.new result (truth_text b) }
    {
        if b {
            self.write("true")
        } else {
            self.write("false")
        }
    }

    pub fn write_number(&mut self, n: i64) -> Result<(), Trouble>
        ensures { Writes self.old self.new result (signed_decimal n) }
    {
        let mut digits = Buffer::new();
        self.write(digits.format(n))
    }

    pub fn write_serial(&mut self, n: u64) -> Result<(), Trouble>
        ensures { Writes self.old self.new result (decimal n) }
    {
        let mut digits = Buffer::new();
        self.write(digits.format(n))
    }

    pub fn write_quoted(&mut self, text: &str) -> Result<(), Trouble>
        ensures { Writes self.old self.new result (quoted text.now) }
    {
        self.write_between("\"", text, "\"")
    }

    /// The text, without a copy.
    pub fn finish(self) -> Result<Str, AllocError>
        ensures value { IfOk result (λ s. s ≡ self) }
        ensures short { length self ≤ longest }
    {
        Str::from_string(self.text)
    }
}
