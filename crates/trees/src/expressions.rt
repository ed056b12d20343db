// Expressions and types: brackets stand round each form that has an operator, and `<e>` is an expression in parentheses.

use crate::operators::{binary_word, prefix_word};
use crate::part::{Part, Parts, put, put_identifier};
use gd_syntax::{ElementName, Expr, Identifier, PathText, Place, TypeName};
use std::alloc::AllocError;

fn put_element<'a>(out: &mut Parts<'a>, element: &'a ElementName) -> Result<(), AllocError> {
    put(
        out,
        &[
            Part::Word("["),
            Part::Detail(element.place),
            Part::Names(element.names.as_slice(), "."),
            Part::Word("]"),
        ],
    )
}

pub fn put_type_name<'a>(out: &mut Parts<'a>, kind: &'a TypeName) -> Result<(), AllocError> {
    match kind {
        TypeName::Named(place, names, element) => {
            put(
                out,
                &[Part::Detail(*place), Part::Names(names.as_slice(), ".")],
            )?;
            match element {
                Some(element) => put_element(out, element),
                None => Ok(()),
            }
        }
        TypeName::Void(place) => put(out, &[Part::Detail(*place), Part::Word("void")]),
    }
}

/// Expressions with a comma between them, in brackets.
pub fn put_list<'a>(
    out: &mut Parts<'a>,
    opening: &'a str,
    items: &'a [Expr],
    closing: &'a str,
) -> Result<(), AllocError> {
    put(out, &[Part::Word(opening)])?;
    let mut before = "";
    for item in items {
        put(out, &[Part::Word(before), Part::Expr(item)])?;
        before = ", ";
    }
    put(out, &[Part::Word(closing)])
}

fn put_entries<'a>(out: &mut Parts<'a>, items: &'a [(Expr, Expr)]) -> Result<(), AllocError> {
    put(out, &[Part::Word("{")])?;
    let mut before = "";
    for item in items {
        put(out, &[Part::Word(before), Part::Expr(&item.0)])?;
        put(out, &[Part::Word(": "), Part::Expr(&item.1)])?;
        before = ", ";
    }
    put(out, &[Part::Word("}")])
}

fn put_fields<'a>(out: &mut Parts<'a>, items: &'a [(Identifier, Expr)]) -> Result<(), AllocError> {
    put(out, &[Part::Word("{")])?;
    let mut before = "";
    for item in items {
        put(out, &[Part::Word(before)])?;
        put_identifier(out, &item.0)?;
        put(out, &[Part::Word(" = "), Part::Expr(&item.1)])?;
        before = ", ";
    }
    put(out, &[Part::Word("}")])
}

fn put_path<'a>(out: &mut Parts<'a>, call: &'a str, path: &'a PathText) -> Result<(), AllocError> {
    put(
        out,
        &[
            Part::Word(call),
            Part::Detail(path.place),
            Part::Quoted(path.text.as_str()),
            Part::Word(")"),
        ],
    )
}

/// An operator before its operand.
fn put_prefix<'a>(out: &mut Parts<'a>, word: &'a str, operand: &'a Expr) -> Result<(), AllocError> {
    put(
        out,
        &[
            Part::Word("("),
            Part::Word(word),
            Part::Expr(operand),
            Part::Word(")"),
        ],
    )
}

/// A word between an expression and what stands behind it.
fn put_between<'a>(
    out: &mut Parts<'a>,
    left: &'a Expr,
    word: &'a str,
    right: Part<'a>,
) -> Result<(), AllocError> {
    put(
        out,
        &[
            Part::Word("("),
            Part::Expr(left),
            Part::Word(word),
            right,
            Part::Word(")"),
        ],
    )
}

fn put_ternary<'a>(
    out: &mut Parts<'a>,
    value: &'a Expr,
    condition: &'a Expr,
    other: &'a Expr,
) -> Result<(), AllocError> {
    put(
        out,
        &[
            Part::Word("("),
            Part::Expr(value),
            Part::Word(" if "),
            Part::Expr(condition),
            Part::Word(" else "),
            Part::Expr(other),
            Part::Word(")"),
        ],
    )
}

/// An expression and what stands behind it.
fn put_postfix<'a>(
    out: &mut Parts<'a>,
    tree: &'a Expr,
    behind: &[Part<'a>],
) -> Result<(), AllocError> {
    put(out, &[Part::Expr(tree)])?;
    put(out, behind)
}

fn place_of(tree: &Expr) -> Place {
    match tree {
        Expr::Literal(place, _)
        | Expr::Name(place, _)
        | Expr::This(place)
        | Expr::Paren(place, _)
        | Expr::Array(place, _)
        | Expr::Dict(place, _)
        | Expr::Table(place, _)
        | Expr::Preload(place, _)
        | Expr::Load(place, _)
        | Expr::NodePath(place, _)
        | Expr::NodeText(place, _)
        | Expr::Super(place, _)
        | Expr::SuperCall(place, _, _)
        | Expr::Index(place, _, _)
        | Expr::Member(place, _, _)
        | Expr::Call(place, _, _)
        | Expr::Is(place, _, _)
        | Expr::IsNot(place, _, _)
        | Expr::Prefix(place, _, _)
        | Expr::Binary { place, .. }
        | Expr::Not(place, _)
        | Expr::Ternary { place, .. }
        | Expr::As(place, _, _) => *place,
    }
}

fn put_form<'a>(out: &mut Parts<'a>, tree: &'a Expr) -> Result<(), AllocError> {
    use Part::{Names, Quoted, Type, Value, Word};
    match tree {
        Expr::Literal(_, value) => put(out, &[Value(value)]),
        Expr::Name(_, name) => put(out, &[Word(name.as_str())]),
        Expr::This(_) => put(out, &[Word("self")]),
        Expr::Paren(_, a) => put(out, &[Word("<"), Part::Expr(a.get()), Word(">")]),
        Expr::Array(_, items) => put_list(out, "[", items.as_slice(), "]"),
        Expr::Dict(_, items) => put_entries(out, items.as_slice()),
        Expr::Table(_, items) => put_fields(out, items.as_slice()),
        Expr::Preload(_, path) => put_path(out, "preload(", path),
        Expr::Load(_, path) => put_path(out, "load(", path),
        Expr::NodePath(_, names) => put(out, &[Word("$"), Names(names.as_slice(), "/")]),
        Expr::NodeText(_, text) => put(out, &[Word("$"), Quoted(text.as_str())]),
        Expr::Super(_, items) => put_list(out, "super(", items.as_slice(), ")"),
        Expr::SuperCall(_, name, items) => {
            put(out, &[Word("super."), Word(name.as_str())])?;
            put_list(out, "(", items.as_slice(), ")")
        }
        Expr::Index(_, a, i) => {
            put_postfix(out, a.get(), &[Word("["), Part::Expr(i.get()), Word("]")])
        }
        Expr::Member(_, a, name) => put_postfix(out, a.get(), &[Word("."), Word(name.as_str())]),
        Expr::Call(_, a, items) => {
            put_postfix(out, a.get(), &[])?;
            put_list(out, "(", items.as_slice(), ")")
        }
        Expr::Is(_, a, kind) => put_between(out, a.get(), " is ", Type(kind)),
        Expr::IsNot(_, a, kind) => put_between(out, a.get(), " is not ", Type(kind)),
        Expr::Prefix(_, op, a) => put_prefix(out, prefix_word(*op), a.get()),
        Expr::Binary {
            op,
            left,
            right,
            ..
        } => put_between(out, left.get(), binary_word(*op), Part::Expr(right.get())),
        Expr::Not(_, a) => put_prefix(out, "not ", a.get()),
        Expr::Ternary {
            value,
            condition,
            otherwise,
            ..
        } => put_ternary(out, value.get(), condition.get(), otherwise.get()),
        Expr::As(_, a, kind) => put_between(out, a.get(), " as ", Type(kind)),
    }
}

pub fn put_expr<'a>(out: &mut Parts<'a>, tree: &'a Expr) -> Result<(), AllocError> {
    put(out, &[Part::Detail(place_of(tree))])?;
    put_form(out, tree)
}
