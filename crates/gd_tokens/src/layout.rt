// The blocks that the lines of a text open and close.
ghost use Rattle.std.specs.Prelude.{◌≡◌, ◌≤◌, [], None, false, length, reverse, IfOk};
ghost use Rattle.gd_syntax.specs.Layout.{innermost, is_mixed, kept, unit_of};
ghost use Rattle.gd_tokens.specs.declared.layout.LayoutError.TheVariants.{NoMemory};
ghost use Rattle.gd_tokens.specs.LayoutParts.{IsDepth, IsEntered, layout_of};

use gd_syntax::FaultKind;
use std::alloc::{AllocError, AllocFailed, Global};

/// The blocks that are open, and what the next line may do.
#[derive(Drop)]
pub struct Layout {
    /// The character that indents the lines of this file, once one is indented.
    pub unit: Option<char>,
    /// The depths of the open blocks, innermost last. The file's own is 0.
    pub depths: Vec<usize>,
    /// The line before ended in `:`.
    pub opens: bool,
}

/// What stands in front of a line.
#[derive(Clone, Copy)]
pub enum Blocks {
    /// A block opens.
    Opened,
    /// So many blocks are closed.
    Closed(usize),
}

/// Why a line has no place in the layout.
#[derive(Clone, Copy)]
pub enum LayoutError {
    Fault(FaultKind),
    NoMemory,
}

impl From<AllocError> for LayoutError {
    ghost from_gives = { λ _ e. e ≡ NoMemory };

    fn from(_: AllocError) -> Self {
        LayoutError::NoMemory
    }
}

impl<T: Drop> From<AllocFailed<T>> for LayoutError {
    ghost from_gives = { λ _ e. e ≡ NoMemory };

    fn from(_: AllocFailed<T>) -> Self {
        LayoutError::NoMemory
    }
}

fn innermost(depths: &[usize]) -> usize
    ensures { result ≡ innermost (reverse depths.now) }
{
    match depths.last() {
        Some(depth) => *depth,
        None => 0,
    }
}

/// Closes the blocks that are deeper than a line.
fn close_deeper(depths: &mut Vec<usize>, depth: usize)
    ensures left { reverse depths.new.items ≡ kept depth (reverse depths.old.items) }
    ensures fewer { length depths.new.items ≤ length depths.old.items }
{
    while innermost(depths.as_slice()) > depth {
        let _ = depths.pop();
    }
}

fn is_mixed(unit: Option<char>, indent: &[char]) -> bool
    ensures { result ≡ is_mixed unit indent.now }
{
    let Some(unit) = unit else {
        return false;
    };
    let mut rest = indent;
    while let [c, after @ ..] = rest {
        if *c != unit {
            return true;
        }
        rest = after;
    }
    false
}

fn unit_of(unit: Option<char>, indent: &[char]) -> Option<char>
    ensures { result ≡ unit_of unit indent.now }
{
    match (unit, indent) {
        (Some(unit), _) => Some(unit),
        (None, [c, ..]) => Some(*c),
        (None, []) => None,
    }
}

impl Layout {
    pub fn new(alloc: Global) -> Layout
        ensures { layout_of result ≡ record { unit = None; depths = []; opens = false } }
    {
        Layout {
            unit: None,
            depths: Vec::new(alloc),
            opens: false,
        }
    }

    /// Opens or closes blocks in front of a line of this depth. None where it is as deep as no open block, and may not
    /// open one.
    fn set_depth(&mut self, depth: usize) -> Result<Option<Blocks>, AllocError>
        ensures unit { self.new.unit ≡ self.old.unit }
        ensures blocks { IfOk result (λ blocks. IsDepth self.old.opens depth (reverse self.old.depths.items) blocks (reverse self.new.depths.items)) }
    {
        if innermost(self.depths.as_slice()) < depth {
            if !self.opens {
                return Ok(None);
            }
            self.depths.push(depth)?;
            return Ok(Some(Blocks::Opened));
        }
        let before = self.depths.len();
        close_deeper(&mut self.depths, depth);
        if innermost(self.depths.as_slice()) != depth {
            return Ok(None);
        }
        Ok(Some(Blocks::Closed(before - self.depths.len())))
    }

    /// Takes a line with these blanks in front, which may end in `:`.
    pub fn enter(&mut self, indent: &[char], opens: bool) -> Result<Blocks, LayoutError>
        ensures { IsEntered (layout_of self.old) indent.now opens result (layout_of self.new) }
    {
        self.unit = unit_of(self.unit, indent);
        if is_mixed(self.unit, indent) {
            return Err(LayoutError::Fault(FaultKind::MixedIndent));
        }
        let Some(blocks) = self.set_depth(indent.len())? else {
            return Err(LayoutError::Fault(FaultKind::BadIndent));
        };
        self.opens = opens;
        Ok(blocks)
    }
}
