ghost use Rattle.std.specs.Prelude.{◌≡◌, IfOk};
ghost use Rattle.variant_values.specs.Classes.{same_class, class_text};

use crate::texts::Str;
use std::alloc::{AllocError, Global};
use std::marker::Model;
use std::sync::Arc;

/// A class of a script: its file's number, and its place among the classes of the file.
#[derive(Clone, Copy, Debug, PartialEq, Eq)]
pub struct ClassId {
    pub file: u32,
    pub index: u32,
}

#[derive(Clone, Copy, Debug, PartialEq, Eq)]
pub enum ClassTag {
    Object,
    RefCounted,
    Node,
    Script(ClassId),
}

/// The type of a typed array's items.
#[derive(Clone, Copy, Debug, PartialEq, Eq)]
pub enum ElementTag {
    Bool,
    Int,
    Str,
    Array,
    Dict,
    Callable,
    Signal,
    Scene,
    Weak,
    Class(ClassTag),
}

/// A class and its ancestors, nearest first. Contracts see the list. A clone shares it.
#[derive(Drop)]
pub struct Lineage {
    tags: Arc<Vec<ClassTag>>,
}

impl Model for Lineage {
    ghost use Rattle.std.specs.Prelude.{List};
    ghost use Rattle.variant_values.specs.declared.classes.ClassTag.{ClassTag};

    ghost Value = { List ClassTag };

    ghost view = { λ c. c.tags.value.items };
}

impl Lineage {
    pub fn new(alloc: Global, tags: Vec<ClassTag>) -> Result<Lineage, AllocError>
        ensures { IfOk result (λ lineage. lineage ≡ tags.items) }
    {
        let tags = Arc::new(alloc, tags)?;
        Ok(Lineage { tags })
    }

    pub fn as_slice(&self) -> &[ClassTag]
        ensures { result.now ≡ self.now }
    {
        self.tags.as_slice()
    }
}

impl Clone for Lineage {
    ghost is_clone = { λ lineage copy. copy ≡ lineage };

    fn clone(&self) -> Result<Lineage, AllocError> {
        let tags = self.tags.clone()?;
        Ok(Lineage { tags })
    }
}

/// Classes and their names in texts. Contracts see the list of pairs.
#[derive(Drop)]
pub struct ClassNames {
    pairs: Vec<(ClassTag, Str)>,
}

impl Model for ClassNames {
    ghost use Rattle.std.specs.Prelude.{ℕ, List};
    ghost use Rattle.variant_values.specs.declared.classes.ClassTag.{ClassTag};

    ghost Value = { List (ClassTag × List ℕ) };

    ghost view = { λ names. names.pairs.items };
}

impl ClassNames {
    pub fn new(pairs: Vec<(ClassTag, Str)>) -> ClassNames
        ensures { result ≡ pairs.items }
    {
        ClassNames { pairs }
    }

    /// The name in the first pair of the class, or the empty text where it has none.
    pub fn text(&self, class: ClassTag) -> &str
        ensures { result.now ≡ class_text self.now class }
    {
        for pair in self.pairs.iter() {
            if is_same_class(&pair.0, &class) {
                return pair.1.as_str();
            }
        }
        ""
    }
}

/// Whether two classes are one.
pub fn is_same_class(a: &ClassTag, b: &ClassTag) -> bool
    ensures { result ≡ same_class a.now b.now }
{
    *a == *b
}
