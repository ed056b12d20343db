// What the machine runs: an `_init` whose lines print sums of whole numbers and texts.

/// `+` or `-`.
#[derive(Clone, Copy, Debug, PartialEq, Eq)]
pub enum SumOp {
    Add,
    Sub,
}

/// Whole numbers that are multiplied, from left to right.
#[derive(Debug, PartialEq, Eq, Drop)]
pub struct FirstProduct {
    pub first: i64,
    pub others: Vec<i64>,
}

/// Products that are added and subtracted, from left to right.
#[derive(Debug, PartialEq, Eq, Drop)]
pub struct FirstSum {
    pub first: FirstProduct,
    pub others: Vec<(SumOp, FirstProduct)>,
}

/// What a `print` is given.
#[derive(Debug, PartialEq, Eq, Drop)]
pub enum FirstItem {
    /// A string without its quotes.
    Text(String),
    Sum(FirstSum),
}

/// A line that prints its items, one after the other.
#[derive(Debug, PartialEq, Eq, Drop)]
pub struct FirstPrint {
    /// Counts from 1.
    pub line: u32,
    pub items: Vec<FirstItem>,
}

/// The lines of `_init`.
#[derive(Debug, PartialEq, Eq, Drop)]
pub struct FirstScript {
    pub prints: Vec<FirstPrint>,
}
