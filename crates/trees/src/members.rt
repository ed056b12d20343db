// Files and their members, with `; ` between them: each head and each member stands behind its place.

use crate::part::{Part, Parts, put, put_identifier, put_type, put_value};
use crate::statements::{
    put_annotation, put_annotations, put_block, put_const, put_declared, put_var,
};
use gd_syntax::{Base, BaseRoot, Class, Enum, Func, Head, Member, Param, Script, Signal};
use std::alloc::AllocError;

fn put_base<'a>(out: &mut Parts<'a>, tree: &'a Base) -> Result<(), AllocError> {
    let root = match &tree.root {
        BaseRoot::Path(text) => Part::Quoted(text.as_str()),
        BaseRoot::Name(name) => Part::Word(name.as_str()),
    };
    put(
        out,
        &[Part::Word("extends "), Part::Detail(tree.place), root],
    )?;
    for name in tree.names.as_slice() {
        put(out, &[Part::Word("."), Part::Word(name.as_str())])?;
    }
    Ok(())
}

fn put_extends<'a>(out: &mut Parts<'a>, base: &'a Option<Base>) -> Result<(), AllocError> {
    match base {
        Some(tree) => {
            put(out, &[Part::Word(" ")])?;
            put_base(out, tree)
        }
        None => Ok(()),
    }
}

pub fn put_head<'a>(out: &mut Parts<'a>, head: &'a Head) -> Result<(), AllocError> {
    match head {
        Head::Annotation(tree) => {
            put(out, &[Part::Place(tree.place)])?;
            put_annotation(out, tree)
        }
        Head::ClassName(place, name, base) => {
            put(out, &[Part::Place(*place), Part::Word("class_name ")])?;
            put_identifier(out, name)?;
            put_extends(out, base)
        }
        Head::Extends(place, base) => {
            put(out, &[Part::Place(*place)])?;
            put_base(out, base)
        }
    }
}

fn put_enum<'a>(out: &mut Parts<'a>, tree: &'a Enum) -> Result<(), AllocError> {
    put(out, &[Part::Word("enum ")])?;
    if let Some(name) = &tree.name {
        put_identifier(out, name)?;
        put(out, &[Part::Word(" ")])?;
    }
    put(out, &[Part::Word("{")])?;
    let mut before = "";
    for item in tree.items.as_slice() {
        put(out, &[Part::Word(before)])?;
        put_identifier(out, &item.name)?;
        put_value(out, " = ", &item.value)?;
        before = ", ";
    }
    put(out, &[Part::Word("}")])
}

fn put_params<'a>(out: &mut Parts<'a>, params: &'a [Param]) -> Result<(), AllocError> {
    put(out, &[Part::Word("(")])?;
    let mut before = "";
    for param in params {
        put(out, &[Part::Word(before)])?;
        put_identifier(out, &param.name)?;
        put_declared(out, &param.declared)?;
        before = ", ";
    }
    put(out, &[Part::Word(")")])
}

fn put_signal<'a>(out: &mut Parts<'a>, tree: &'a Signal) -> Result<(), AllocError> {
    put(out, &[Part::Word("signal ")])?;
    put_identifier(out, &tree.name)?;
    put_params(out, tree.params.as_slice())
}

fn put_func<'a>(out: &mut Parts<'a>, tree: &'a Func) -> Result<(), AllocError> {
    put_annotations(out, tree.annotations.as_slice())?;
    let word = if tree.is_static {
        "static func "
    } else {
        "func "
    };
    put(out, &[Part::Word(word)])?;
    put_identifier(out, &tree.name)?;
    put_params(out, tree.params.as_slice())?;
    put_type(out, " -> ", &tree.result)?;
    put_block(out, tree.body.as_slice())
}

/// Members with a semicolon between them.
fn put_members<'a>(
    out: &mut Parts<'a>,
    first: &'a str,
    members: &'a [Member],
) -> Result<(), AllocError> {
    let mut before = first;
    for member in members {
        put(out, &[Part::Word(before), Part::Member(member)])?;
        before = "; ";
    }
    Ok(())
}

fn put_class<'a>(out: &mut Parts<'a>, tree: &'a Class) -> Result<(), AllocError> {
    put(out, &[Part::Word("class ")])?;
    put_identifier(out, &tree.name)?;
    put_extends(out, &tree.base)?;
    put(out, &[Part::Word(" {")])?;
    put_members(out, "", tree.members.as_slice())?;
    put(out, &[Part::Word("}")])
}

pub fn put_member<'a>(out: &mut Parts<'a>, member: &'a Member) -> Result<(), AllocError> {
    let place = match member {
        Member::Pass(place) => *place,
        Member::Var(tree) => tree.place,
        Member::Const(tree) => tree.place,
        Member::Enum(tree) => tree.place,
        Member::Signal(tree) => tree.place,
        Member::Func(tree) => tree.place,
        Member::Class(tree) => tree.place,
    };
    put(out, &[Part::Place(place)])?;
    match member {
        Member::Pass(_) => put(out, &[Part::Word("pass")]),
        Member::Var(tree) => put_var(out, tree),
        Member::Const(tree) => put_const(out, tree),
        Member::Enum(tree) => put_enum(out, tree),
        Member::Signal(tree) => put_signal(out, tree),
        Member::Func(tree) => put_func(out, tree),
        Member::Class(tree) => put_class(out, tree),
    }
}

pub fn put_script<'a>(out: &mut Parts<'a>, script: &'a Script) -> Result<(), AllocError> {
    let mut before = "";
    for head in script.heads.as_slice() {
        put(out, &[Part::Word(before)])?;
        put_head(out, head)?;
        before = "; ";
    }
    put_members(out, before, script.members.as_slice())
}
