// Members of classes, and inner classes.
ghost use Rattle.std.specs.Prelude.{◌≡◌, ◌≢◌, ◌+◌, ◌-◌, ◌<◌, ◌≤◌, [], length, Some, IfOk};
ghost use Rattle.gd_syntax.specs.Reading.{Read, Answers, Look, Loop};
ghost use Rattle.gd_syntax.specs.TokenReading.{IsEnded, mark_at, place_at};
ghost use Rattle.gd_syntax.specs.MemberGrammar as spec;
ghost use Rattle.gd_parser.specs.Members.{annotated_member, plain_by, found_member, found_members};

use crate::declarations::{Owner, annots, new_name};
use crate::functions::below;
use crate::members::{annotated, const_line, enum_line, optional_base, pass_line, signal_line};
use gd_exprs::reader::{due, fault_at, mark_at, place_at, sees, skip};
use gd_syntax::{Class, FaultKind, Mark, Member, SolveError, Sought, Token};
use std::alloc::Global;
use tree_lists::Items;

/// How many members a class has at most.
const MAX_MEMBERS: usize = 4096;

/// How many classes a file has at most, its own with them.
const MAX_CLASSES: usize = 256;

/// A member, and how many classes have begun in the file.
#[derive(Debug, Drop)]
pub struct FoundMember {
    pub tree: Member,
    pub classes: usize,
    pub at: usize,
}

/// The members of a class, and how many classes have begun in the file.
#[derive(Debug, Drop)]
pub struct FoundMembers {
    pub members: Items<Member>,
    pub classes: usize,
    pub at: usize,
}

/// Whether a member begins with this token.
fn is_member(mark: Option<Mark>) -> bool
    ensures { result ≡ spec.is_member mark }
{
    matches!(
        mark,
        Some(
            Mark::At
                | Mark::Pass
                | Mark::Var
                | Mark::Const
                | Mark::Enum
                | Mark::Signal
                | Mark::Static
                | Mark::Func
                | Mark::Class
        )
    )
}

/// A variable or a function with its annotations.
fn annotated_member(
    alloc: Global,
    tokens: &[Token],
    at: usize,
) -> Result<(Member, usize), SolveError>
    requires within { at < length tokens.now }
    requires ended { IsEnded tokens.now }
    ensures reads { Answers (λ found. Read found.0 found.1) result (annotated_member tokens.now (place_at tokens.now at) at) }
    ensures within { IfOk result (λ found. found.1 < length tokens.now) }
    ensures after { IfOk result (λ found. at < found.1) }
{
    let place = place_at(tokens, at);
    let (before, next) = annots(alloc, tokens, at, Owner::Member)?;
    annotated(alloc, tokens, next, place, before)
}

/// A member that is no class.
fn plain_member(alloc: Global, tokens: &[Token], at: usize) -> Result<(Member, usize), SolveError>
    requires within { at < length tokens.now }
    requires ended { IsEnded tokens.now }
    ensures reads { Answers (λ found. Read found.0 found.1) result (Look (mark_at tokens.now) (plain_by tokens.now (place_at tokens.now at)) at) }
    ensures within { IfOk result (λ found. found.1 < length tokens.now) }
    ensures after { IfOk result (λ found. at < found.1) }
{
    if sees(tokens, at, Mark::Pass) {
        return pass_line(tokens, at);
    }
    if sees(tokens, at, Mark::Const) {
        return const_line(alloc, tokens, at);
    }
    if sees(tokens, at, Mark::Enum) {
        return enum_line(alloc, tokens, at);
    }
    if sees(tokens, at, Mark::Signal) {
        return signal_line(alloc, tokens, at);
    }
    annotated_member(alloc, tokens, at)
}

/// An inner class, behind which `room` more may be open. `classes` have begun in the file.
#[cycle(class_members)]
fn inner_class(
    alloc: Global,
    tokens: &[Token],
    at: usize,
    room: usize,
    classes: usize,
) -> Result<FoundMember, SolveError>
    requires within { at < length tokens.now }
    requires ended { IsEnded tokens.now }
    requires begins { mark_at tokens.now at ≡ Some Mark.Class }
    ensures reads { Answers found_member result (spec.class tokens.now (spec.class_block tokens.now room) classes (place_at tokens.now at) at) }
    ensures within { IfOk result (λ found. found.at < length tokens.now) }
    ensures after { IfOk result (λ found. at < found.at) }
{
    let place = place_at(tokens, at);
    below(tokens, at, classes, MAX_CLASSES)?;
    let (name, next) = new_name(tokens, skip(tokens, at))?;
    let (base, colon) = optional_base(alloc, tokens, next)?;
    let start = due(tokens, colon, Sought::Other, Mark::Colon)?;
    let FoundMembers {
        members,
        classes: begun,
        at: end,
    } = class_block(alloc, tokens, start, room, classes + 1)?;
    Ok(FoundMember {
        tree: Member::Class(Class {
            place,
            name,
            base,
            members,
        }),
        classes: begun,
        at: end,
    })
}

/// A member, in which `room` more inner classes may be open.
#[cycle(class_members)]
fn member(
    alloc: Global,
    tokens: &[Token],
    at: usize,
    room: usize,
    classes: usize,
) -> Result<FoundMember, SolveError>
    requires within { at < length tokens.now }
    requires ended { IsEnded tokens.now }
    ensures reads { Answers found_member result (spec.member tokens.now (spec.class_block tokens.now room) classes at) }
    ensures within { IfOk result (λ found. found.at < length tokens.now) }
    ensures after { IfOk result (λ found. at < found.at) }
{
    if sees(tokens, at, Mark::Class) {
        return inner_class(alloc, tokens, at, room, classes);
    }
    let (tree, next) = plain_member(alloc, tokens, at)?;
    Ok(FoundMember {
        tree,
        classes,
        at: next,
    })
}

/// The members of a class behind those in `first`.
#[cycle(class_members)]
pub fn member_list(
    alloc: Global,
    tokens: &[Token],
    start: usize,
    room: usize,
    first: Items<Member>,
    classes: usize,
) -> Result<FoundMembers, SolveError>
    requires within { start < length tokens.now }
    requires ended { IsEnded tokens.now }
    ensures reads { Answers found_members result (spec.members tokens.now (spec.class_block tokens.now room) (first, classes) start) }
    ensures within { IfOk result (λ found. found.at < length tokens.now) }
    ensures after { IfOk result (λ found. start ≤ found.at) }
{
    let mut members = first;
    let mut begun = classes;
    let mut at = start;
    'members: while is_member(mark_at(tokens, at)) {
        below(tokens, at, members.len(), MAX_MEMBERS)?;
        let found = member(alloc, tokens, at, room, begun)?;
        let FoundMember {
            tree,
            classes: more,
            at: next,
        } = found;
        members.push(tree)?;
        begun = more;
        at = next;
    }
    Ok(FoundMembers {
        members,
        classes: begun,
        at,
    })
}

/// The members of an inner class behind its `:`, where `room` more classes may be open.
#[cycle(class_members)]
fn class_block(
    alloc: Global,
    tokens: &[Token],
    at: usize,
    room: usize,
    classes: usize,
) -> Result<FoundMembers, SolveError>
    requires within { at < length tokens.now }
    requires ended { IsEnded tokens.now }
    ensures reads { Answers found_members result (spec.class_block tokens.now room classes at) }
    ensures within { IfOk result (λ found. found.at < length tokens.now) }
    ensures after { IfOk result (λ found. at < found.at) }
{
    if room == 0 {
        return Err(fault_at(tokens, at, FaultKind::NestTooDeep));
    }
    let indent = due(tokens, at, Sought::Other, Mark::Newline)?;
    let start = due(tokens, indent, Sought::Other, Mark::Indent)?;
    let FoundMembers {
        members,
        classes: begun,
        at: close,
    } = member_list(alloc, tokens, start, room - 1, Items::new(alloc), classes)?;
    let end = due(tokens, close, Sought::Other, Mark::Dedent)?;
    Ok(FoundMembers {
        members,
        classes: begun,
        at: end,
    })
}
