// Statements and blocks: a line ends in `;`, with ` ; ` between its statements, and braces stand round a block.

use crate::expressions::put_list;
use crate::operators::assign_word;
use crate::part::{Part, Parts, put, put_identifier, put_type, put_value};
use crate::patterns::put_patterns;
use gd_syntax::{Annotation, Branch, Const, Declared, Expr, MatchBranch, Place, Simple, Stmt, Var};
use std::alloc::AllocError;
use tree_lists::Items;

pub fn put_declared<'a>(out: &mut Parts<'a>, what: &'a Declared) -> Result<(), AllocError> {
    match what {
        Declared::Typed(kind, value) => {
            put_type(out, ": ", kind)?;
            put_value(out, " = ", value)
        }
        Declared::Inferred(value) => put(out, &[Part::Word(" := "), Part::Expr(value)]),
    }
}

pub fn put_annotation<'a>(out: &mut Parts<'a>, tree: &'a Annotation) -> Result<(), AllocError> {
    put(out, &[Part::Word("@"), Part::Word(tree.name.as_str())])?;
    if tree.args.is_empty() {
        return Ok(());
    }
    put_list(out, "(", tree.args.as_slice(), ")")
}

/// The annotations before a declaration.
pub fn put_annotations<'a>(out: &mut Parts<'a>, all: &'a [Annotation]) -> Result<(), AllocError> {
    for tree in all {
        put(out, &[Part::Detail(tree.place)])?;
        put_annotation(out, tree)?;
        put(out, &[Part::Word(" ")])?;
    }
    Ok(())
}

pub fn put_var<'a>(out: &mut Parts<'a>, tree: &'a Var) -> Result<(), AllocError> {
    put_annotations(out, tree.annotations.as_slice())?;
    put(out, &[Part::Word("var ")])?;
    put_identifier(out, &tree.name)?;
    put_declared(out, &tree.declared)
}

pub fn put_const<'a>(out: &mut Parts<'a>, tree: &'a Const) -> Result<(), AllocError> {
    put(out, &[Part::Word("const ")])?;
    put_identifier(out, &tree.name)?;
    put_type(out, ": ", &tree.type_name)?;
    put(out, &[Part::Word(" = "), Part::Expr(&tree.value)])
}

fn put_assert<'a>(
    out: &mut Parts<'a>,
    condition: &'a Expr,
    message: &'a Option<Expr>,
) -> Result<(), AllocError> {
    put(out, &[Part::Word("assert("), Part::Expr(condition)])?;
    put_value(out, ", ", message)?;
    put(out, &[Part::Word(")")])
}

/// A word at its place.
fn put_word<'a>(out: &mut Parts<'a>, place: Place, word: &'a str) -> Result<(), AllocError> {
    put(out, &[Part::Detail(place), Part::Word(word)])
}

pub fn put_simple<'a>(out: &mut Parts<'a>, tree: &'a Simple) -> Result<(), AllocError> {
    match tree {
        Simple::Pass(place) => put_word(out, *place, "pass"),
        Simple::Break(place) => put_word(out, *place, "break"),
        Simple::Continue(place) => put_word(out, *place, "continue"),
        Simple::Return(place, value) => {
            put_word(out, *place, "return")?;
            put_value(out, " ", value)
        }
        Simple::Var(tree) => {
            put(out, &[Part::Detail(tree.place)])?;
            put_var(out, tree)
        }
        Simple::Const(tree) => {
            put(out, &[Part::Detail(tree.place)])?;
            put_const(out, tree)
        }
        Simple::Assert(place, condition, message) => {
            put(out, &[Part::Detail(*place)])?;
            put_assert(out, condition, message)
        }
        Simple::Assign {
            place,
            target,
            op,
            value,
        } => {
            put(out, &[Part::Detail(*place), Part::Expr(target)])?;
            put(out, &[Part::Word(assign_word(*op)), Part::Expr(value)])
        }
        Simple::Expr(place, value) => put(out, &[Part::Detail(*place), Part::Expr(value)]),
    }
}

fn put_line<'a>(out: &mut Parts<'a>, all: &'a [Simple]) -> Result<(), AllocError> {
    let mut before = "";
    for simple in all {
        put(out, &[Part::Word(before), Part::Simple(simple)])?;
        before = " ; ";
    }
    put(out, &[Part::Word(";")])
}

pub fn put_block<'a>(out: &mut Parts<'a>, body: &'a [Stmt]) -> Result<(), AllocError> {
    put(out, &[Part::Word(" {")])?;
    for statement in body {
        put(out, &[Part::Stmt(statement)])?;
    }
    put(out, &[Part::Word("}")])
}

fn put_if<'a>(
    out: &mut Parts<'a>,
    branches: &'a [Branch],
    other: &'a Option<Items<Stmt>>,
) -> Result<(), AllocError> {
    let mut word = "if ";
    for branch in branches {
        put(out, &[Part::Word(" ")])?;
        put_word(out, branch.place, word)?;
        put(out, &[Part::Expr(&branch.condition)])?;
        put_block(out, branch.body.as_slice())?;
        word = "elif ";
    }
    match other {
        Some(body) => {
            put(out, &[Part::Word(" else")])?;
            put_block(out, body.as_slice())
        }
        None => Ok(()),
    }
}

fn put_match<'a>(
    out: &mut Parts<'a>,
    subject: &'a Expr,
    branches: &'a [MatchBranch],
) -> Result<(), AllocError> {
    put(
        out,
        &[Part::Word("match "), Part::Expr(subject), Part::Word(" {")],
    )?;
    for branch in branches {
        put_patterns(out, branch.patterns.as_slice())?;
        put_block(out, branch.body.as_slice())?;
    }
    put(out, &[Part::Word("}")])
}

pub fn put_stmt<'a>(out: &mut Parts<'a>, tree: &'a Stmt) -> Result<(), AllocError> {
    match tree {
        Stmt::Line(place, all) => {
            put(out, &[Part::Detail(*place)])?;
            put_line(out, all.as_slice())
        }
        Stmt::If(_, branches, other) => put_if(out, branches.as_slice(), other),
        Stmt::For {
            place,
            name,
            type_name,
            subject,
            body,
        } => {
            put(out, &[Part::Word(" ")])?;
            put_word(out, *place, "for ")?;
            put_identifier(out, name)?;
            put_type(out, ": ", type_name)?;
            put(out, &[Part::Word(" in "), Part::Expr(subject)])?;
            put_block(out, body.as_slice())
        }
        Stmt::While(place, condition, body) => {
            put(out, &[Part::Word(" ")])?;
            put_word(out, *place, "while ")?;
            put(out, &[Part::Expr(condition)])?;
            put_block(out, body.as_slice())
        }
        Stmt::Match(place, subject, branches) => {
            put(out, &[Part::Word(" "), Part::Detail(*place)])?;
            put_match(out, subject, branches.as_slice())
        }
    }
}
