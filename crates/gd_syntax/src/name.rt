// Texts that contracts see as lists of characters.
ghost use Rattle.std.specs.Prelude.{◌≡◌, [], ◌∷◌, ◌++◌, if◌then◌else◌, string_bytes, is_ok};
ghost use Rattle.std.specs.Str.{chars, IsAscii, bytes_eq};
ghost use Rattle.gd_syntax.specs.Refusals as words;
ghost use Rattle.gd_syntax.specs.TokenReading as plain;

use std::alloc::{AllocError, Global};
use std::marker::Model;

/// A text, which contracts see as the list of its characters.
#[derive(Debug, Drop)]
pub struct Text {
    text: String,
}

impl Model for Text {
    ghost use Rattle.std.specs.Prelude.{List, ℕ, string_bytes};
    ghost use Rattle.std.specs.Str.{chars};

    ghost Value = { List ℕ };

    ghost view = { λ t. chars (string_bytes t.text) };
}

impl Text {
    /// The empty text.
    pub fn new(alloc: Global) -> Text
        ensures { result ≡ [] }
    {
        Text {
            text: String::new(alloc),
        }
    }

    /// Puts a character at the end.
    pub fn push(&mut self, c: char) -> Result<(), AllocError>
        ensures { self.new ≡ (if is_ok result then self.old ++ c ∷ [] else self.old) }
    {
        self.text.push(c)
    }

    pub fn as_str(&self) -> &str
        ensures { chars result.now ≡ self.now }
    {
        self.text.as_str()
    }
}

impl PartialEq for Text {
    ghost use Rattle.std.specs.Prelude.{nat_eq};
    ghost use Rattle.std.specs.Cmp.Lexicographic.{pointwise, lists_per};
    ghost use Rattle.std.specs.Cmp.{nat_eq_equiv, partial_equiv_from_equiv};

    ghost eq = { pointwise nat_eq };

    ghost laws = { lists_per (partial_equiv_from_equiv nat_eq_equiv) };

    fn eq(&self, other: &Self) -> bool {
        self.text == other.text
    }
}

impl Eq for Text {
    ghost use Rattle.std.specs.Cmp.{nat_eq_equiv};
    ghost use Rattle.std.specs.Cmp.Lexicographic.{lists_equiv};

    ghost laws = { lists_equiv nat_eq_equiv };
}

impl Clone for Text {
    ghost is_clone = { λ t u. u ≡ t };

    fn clone(&self) -> Result<Self, AllocError> {
        Ok(Text {
            text: self.text.clone()?,
        })
    }
}

/// An identifier's text, which contracts see as the list of its characters.
#[derive(Debug, Drop)]
pub struct Name {
    text: Text,
}

impl Model for Name {
    ghost use Rattle.std.specs.Prelude.{List, ℕ};

    ghost Value = { List ℕ };

    ghost view = { λ n. n.text };
}

impl Name {
    pub fn from_text(text: Text) -> Name
        ensures { result ≡ text }
    {
        Name { text }
    }

    pub fn as_str(&self) -> &str
        ensures { chars result.now ≡ self.now }
    {
        self.text.as_str()
    }

    /// Whether this is the word, whose characters are all ASCII.
    pub fn is_word(&self, word: &str) -> bool
        requires { IsAscii word.now }
        ensures { result ≡ bytes_eq self.now word.now }
    {
        self.as_str() == word
    }

    /// Whether the word belongs to floating point, which scripts may not have.
    pub fn is_float_word(&self) -> bool
        ensures { result ≡ words.is_float_word self.now }
    {
        self.is_word("float")
            || self.is_word("PI")
            || self.is_word("TAU")
            || self.is_word("INF")
            || self.is_word("NAN")
    }

    pub fn is_typeof(&self) -> bool
        ensures { result ≡ words.is_typeof self.now }
    {
        self.is_word("typeof")
    }

    pub fn is_load(&self) -> bool
        ensures { result ≡ words.is_load self.now }
    {
        self.is_word("load")
    }

    /// Whether the word is a name outside dots.
    pub fn is_plain(&self) -> bool
        ensures { result ≡ plain.is_plain self.now }
    {
        !self.is_float_word() && !self.is_typeof() && !self.is_load()
    }
}

impl PartialEq for Name {
    ghost use Rattle.std.specs.Prelude.{nat_eq};
    ghost use Rattle.std.specs.Cmp.Lexicographic.{pointwise, lists_per};
    ghost use Rattle.std.specs.Cmp.{nat_eq_equiv, partial_equiv_from_equiv};

    ghost eq = { pointwise nat_eq };

    ghost laws = { lists_per (partial_equiv_from_equiv nat_eq_equiv) };

    fn eq(&self, other: &Self) -> bool {
        self.text == other.text
    }
}

impl Eq for Name {
    ghost use Rattle.std.specs.Cmp.{nat_eq_equiv};
    ghost use Rattle.std.specs.Cmp.Lexicographic.{lists_equiv};

    ghost laws = { lists_equiv nat_eq_equiv };
}

impl Clone for Name {
    ghost is_clone = { λ n o. o ≡ n };

    fn clone(&self) -> Result<Self, AllocError> {
        Ok(Name {
            text: self.text.clone()?,
        })
    }
}
