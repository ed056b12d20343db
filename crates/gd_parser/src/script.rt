// The heads of a file, and files.
ghost use Rattle.std.specs.Prelude.{◌≡◌, ◌≢◌, ◌+◌, ◌-◌, ◌<◌, ◌≤◌, ◌++◌, [], ◌∷◌, length, map, true, false, Some, IfOk};
ghost use Rattle.std.specs.List.{list_any};
ghost use Rattle.gd_syntax.specs.Reading.{Outcome, Read, On, Answers, Look, Loop};
ghost use Rattle.gd_syntax.specs.TokenReading as token;
ghost use Rattle.gd_syntax.specs.TokenReading.{IsEnded, mark_at, place_at};
ghost use Rattle.gd_syntax.specs.MemberGrammar.{is_field_annotation};
ghost use Rattle.gd_syntax.specs.ScriptGrammar as spec;
ghost use Rattle.gd_syntax.specs.declared.tree.member.Script.{Script};
ghost use Rattle.gd_parser.specs.Files.{anywhere, heads_of, head, name_refused, base_refused, HasFlags, IsParsed, GivesTree};

use crate::classes::{FoundMembers, member_list};
use crate::declarations::{Owner, annot, is_field_word, is_head_word, new_name};
use crate::members::{annotated, base};
use gd_exprs::reader::{due, kind_at, mark_at, place_at, refuse, sees, skip};
use gd_syntax::{
    Annotation, Base, Head, Kind, Mark, Member, Place, Script, SolveError, Sought, Token,
};
use std::alloc::{AllocError, Global};
use tree_lists::Items;

/// How many inner classes are open at one place at most.
const MAX_OPEN_CLASSES: usize = 128;

/// The heads that are read, and the annotations behind them that may belong to the first member.
#[derive(Debug, Drop)]
pub struct FoundHeads {
    pub heads: Items<Head>,
    pub behind: Vec<Annotation>,
    /// Whether an annotation of a variable is behind them.
    pub behind_field: bool,
    /// Whether an annotation of a file is.
    pub behind_head: bool,
}

/// Whether a place stands before another.
fn is_before(a: Place, b: Place) -> bool
    ensures { result ≡ spec.is_before a b }
{
    a.line < b.line || a.line == b.line && a.column < b.column
}

fn is_named(heads: &Items<Head>) -> bool
    ensures { result ≡ list_any spec.is_named heads.now }
{
    heads
        .as_slice()
        .iter()
        .any(|head| matches!(head, Head::ClassName(..)))
}

fn has_base(head: &Head) -> bool
    ensures { result ≡ spec.is_based head.now }
{
    match head {
        Head::ClassName(_, _, base) => base.is_some(),
        Head::Extends(..) => true,
        Head::Annotation(_) => false,
    }
}

fn is_based(heads: &Items<Head>) -> bool
    ensures { result ≡ list_any spec.is_based heads.now }
{
    heads.as_slice().iter().any(|head| has_base(head))
}

/// The heads with one more annotation. One of a file that nothing stands before is a head.
fn with_annotation(sofar: FoundHeads, a: Annotation) -> Result<FoundHeads, AllocError>
    requires flags { HasFlags sofar }
    ensures heads { IfOk result (λ all. heads_of all ≡ spec.with_annotation sofar.heads sofar.behind.items a) }
    ensures flags { IfOk result HasFlags }
{
    let FoundHeads {
        mut heads,
        mut behind,
        behind_field,
        behind_head,
    } = sofar;
    let is_field = is_field_word(&a.name);
    let is_head = is_head_word(&a.name);
    if is_head && behind.is_empty() {
        heads.push(Head::Annotation(a))?;
        return Ok(FoundHeads {
            heads,
            behind,
            behind_field,
            behind_head,
        });
    }
    behind.push(a)?;
    Ok(FoundHeads {
        heads,
        behind,
        behind_field: behind_field || is_field,
        behind_head: behind_head || is_head,
    })
}

/// The heads with the annotations behind them, which are heads too.
fn with_annotations(heads: Items<Head>, behind: Vec<Annotation>) -> Result<Items<Head>, AllocError>
    ensures { IfOk result (λ all. all ≡ heads ++ map Head.Annotation behind.items) }
{
    let mut all = heads;
    'annotations: for a in behind {
        all.push(Head::Annotation(a))?;
    }
    Ok(all)
}

/// The heads with one more, which stands behind the annotations.
fn with_head(alloc: Global, sofar: FoundHeads, head: Head) -> Result<FoundHeads, AllocError>
    ensures heads { IfOk result (λ all. heads_of all ≡ spec.with_head (heads_of sofar) head) }
    ensures flags { IfOk result HasFlags }
{
    let FoundHeads { heads, behind, .. } = sofar;
    let mut all = with_annotations(heads, behind)?;
    all.push(head)?;
    Ok(FoundHeads {
        heads: all,
        behind: Vec::new(alloc),
        behind_field: false,
        behind_head: false,
    })
}

/// `extends` and its base behind a name, which may be missing, and are where the file has a base.
fn class_name_base(
    alloc: Global,
    tokens: &[Token],
    at: usize,
    based: bool,
) -> Result<(Option<Base>, usize), SolveError>
    requires within { at < length tokens.now }
    requires ended { IsEnded tokens.now }
    ensures reads { Answers (λ found. Read found.0 found.1) result (Look (mark_at tokens.now) (spec.base_by tokens.now anywhere based) at) }
    ensures within { IfOk result (λ found. found.1 < length tokens.now) }
    ensures after { IfOk result (λ found. at ≤ found.1) }
{
    if !sees(tokens, at, Mark::Extends) {
        return Ok((None, at));
    }
    if based {
        return Err(refuse(tokens, at, Sought::Other));
    }
    let (tree, next) = base(alloc, tokens, skip(tokens, at))?;
    Ok((Some(tree), next))
}

/// `class_name`, the name, and a base.
fn class_name(
    alloc: Global,
    tokens: &[Token],
    at: usize,
    based: bool,
) -> Result<(Head, usize), SolveError>
    requires within { at < length tokens.now }
    requires ended { IsEnded tokens.now }
    requires begins { mark_at tokens.now at ≡ Some Mark.ClassName }
    ensures reads { Answers (λ found. Read found.0 found.1) result (spec.class_name tokens.now anywhere based (token.place_at tokens.now at) at) }
    ensures within { IfOk result (λ found. found.1 < length tokens.now) }
    ensures after { IfOk result (λ found. at < found.1) }
{
    let place = place_at(tokens, at);
    let (name, next) = new_name(tokens, skip(tokens, at))?;
    let (tree, end) = class_name_base(alloc, tokens, next, based)?;
    let line = due(tokens, end, Sought::Other, Mark::Newline)?;
    Ok((Head::ClassName(place, name, tree), line))
}

/// `extends` and the base of the file.
fn extends(alloc: Global, tokens: &[Token], at: usize) -> Result<(Head, usize), SolveError>
    requires within { at < length tokens.now }
    requires ended { IsEnded tokens.now }
    requires begins { mark_at tokens.now at ≡ Some Mark.Extends }
    ensures reads { Answers (λ found. Read found.0 found.1) result (spec.extends tokens.now anywhere (token.place_at tokens.now at) at) }
    ensures within { IfOk result (λ found. found.1 < length tokens.now) }
    ensures after { IfOk result (λ found. at < found.1) }
{
    let place = place_at(tokens, at);
    let (tree, end) = base(alloc, tokens, skip(tokens, at))?;
    let line = due(tokens, end, Sought::Other, Mark::Newline)?;
    Ok((Head::Extends(place, tree), line))
}

/// Whether the name of the `class_name` stands on a later line.
fn is_name_below(tokens: &[Token], at: usize) -> bool
    requires within { at < length tokens.now }
    requires ended { IsEnded tokens.now }
    requires goes_on { token.mark_at tokens.now at ≢ Some Mark.End }
    ensures { result ≡ spec.is_name_below tokens.now at }
{
    let next = skip(tokens, at);
    match kind_at(tokens, next) {
        Kind::Name(_) => place_at(tokens, at).line < place_at(tokens, next).line,
        _ => false,
    }
}

/// Whether no `class_name` may stand there.
fn refuses_name(tokens: &[Token], at: usize, header_end: Place, sofar: &FoundHeads) -> bool
    requires within { at < length tokens.now }
    requires ended { IsEnded tokens.now }
    requires begins { mark_at tokens.now at ≡ Some Mark.ClassName }
    requires flags { HasFlags sofar.now }
    ensures { result ≡ name_refused tokens.now header_end sofar.now at }
{
    let is_known = is_before(place_at(tokens, at), header_end) && !is_name_below(tokens, at);
    sofar.behind_field || is_named(&sofar.heads) || !is_known
}

/// Whether no `extends` may stand there.
fn refuses_base(sofar: &FoundHeads) -> bool
    requires flags { HasFlags sofar.now }
    ensures { result ≡ base_refused sofar.now }
{
    sofar.behind_field || is_based(&sofar.heads)
}

/// An annotation among the heads.
fn annotation_head(
    alloc: Global,
    tokens: &[Token],
    at: usize,
    sofar: FoundHeads,
) -> Result<(FoundHeads, usize), SolveError>
    requires within { at < length tokens.now }
    requires ended { IsEnded tokens.now }
    requires flags { HasFlags sofar }
    requires begins { mark_at tokens.now at ≡ Some Mark.At }
    ensures reads { Answers (λ found. Read (On (heads_of found.0)) found.1) result (spec.head_by tokens.now anywhere (heads_of sofar) (token.place_at tokens.now at) true (Some Mark.At) at) }
    ensures flags { IfOk result (λ found. HasFlags found.0) }
    ensures within { IfOk result (λ found. found.1 < length tokens.now) }
    ensures after { IfOk result (λ found. at < found.1) }
{
    let owner = Owner::File {
        behind_field: sofar.behind_field,
        behind_head: sofar.behind_head,
    };
    let (tree, next) = annot(alloc, tokens, at, owner)?;
    let more = with_annotation(sofar, tree)?;
    Ok((more, next))
}

/// `class_name` among the heads.
fn name_head(
    alloc: Global,
    tokens: &[Token],
    at: usize,
    header_end: Place,
    sofar: FoundHeads,
) -> Result<(FoundHeads, usize), SolveError>
    requires within { at < length tokens.now }
    requires ended { IsEnded tokens.now }
    requires flags { HasFlags sofar }
    requires begins { mark_at tokens.now at ≡ Some Mark.ClassName }
    ensures reads { Answers (λ found. Read (On (heads_of found.0)) found.1) result (head tokens.now header_end (heads_of sofar) at) }
    ensures flags { IfOk result (λ found. HasFlags found.0) }
    ensures within { IfOk result (λ found. found.1 < length tokens.now) }
    ensures after { IfOk result (λ found. at < found.1) }
{
    if refuses_name(tokens, at, header_end, &sofar) {
        return Err(refuse(tokens, at, Sought::Other));
    }
    let based = is_based(&sofar.heads);
    let (tree, next) = class_name(alloc, tokens, at, based)?;
    let more = with_head(alloc, sofar, tree)?;
    Ok((more, next))
}

/// `extends` among the heads.
fn base_head(
    alloc: Global,
    tokens: &[Token],
    at: usize,
    sofar: FoundHeads,
) -> Result<(FoundHeads, usize), SolveError>
    requires within { at < length tokens.now }
    requires ended { IsEnded tokens.now }
    requires flags { HasFlags sofar }
    requires begins { mark_at tokens.now at ≡ Some Mark.Extends }
    ensures reads { Answers (λ found. Read (On (heads_of found.0)) found.1) result (spec.head_by tokens.now anywhere (heads_of sofar) (token.place_at tokens.now at) true (Some Mark.Extends) at) }
    ensures flags { IfOk result (λ found. HasFlags found.0) }
    ensures within { IfOk result (λ found. found.1 < length tokens.now) }
    ensures after { IfOk result (λ found. at < found.1) }
{
    if refuses_base(&sofar) {
        return Err(refuse(tokens, at, Sought::Other));
    }
    let (tree, next) = extends(alloc, tokens, at)?;
    let more = with_head(alloc, sofar, tree)?;
    Ok((more, next))
}

/// Whether a head begins there.
fn begins_head(tokens: &[Token], at: usize) -> bool
    requires { at < length tokens.now }
    ensures yes { result ≡ true → mark_at tokens.now at ≢ Some Mark.At → mark_at tokens.now at ≢ Some Mark.ClassName → mark_at tokens.now at ≡ Some Mark.Extends }
    ensures no_annotation { result ≡ false → mark_at tokens.now at ≢ Some Mark.At }
    ensures no_name { result ≡ false → mark_at tokens.now at ≢ Some Mark.ClassName }
    ensures no_base { result ≡ false → mark_at tokens.now at ≢ Some Mark.Extends }
{
    sees(tokens, at, Mark::At)
        || sees(tokens, at, Mark::ClassName)
        || sees(tokens, at, Mark::Extends)
}

/// A head, or an annotation that may be one.
fn one_head(
    alloc: Global,
    tokens: &[Token],
    at: usize,
    header_end: Place,
    sofar: FoundHeads,
) -> Result<(FoundHeads, usize), SolveError>
    requires within { at < length tokens.now }
    requires ended { IsEnded tokens.now }
    requires flags { HasFlags sofar }
    requires begins { mark_at tokens.now at ≢ Some Mark.At → mark_at tokens.now at ≢ Some Mark.ClassName → mark_at tokens.now at ≡ Some Mark.Extends }
    ensures reads { Answers (λ found. Read (On (heads_of found.0)) found.1) result (head tokens.now header_end (heads_of sofar) at) }
    ensures flags { IfOk result (λ found. HasFlags found.0) }
    ensures within { IfOk result (λ found. found.1 < length tokens.now) }
    ensures after { IfOk result (λ found. at < found.1) }
{
    if sees(tokens, at, Mark::At) {
        return annotation_head(alloc, tokens, at, sofar);
    }
    if sees(tokens, at, Mark::ClassName) {
        return name_head(alloc, tokens, at, header_end, sofar);
    }
    base_head(alloc, tokens, at, sofar)
}

/// The heads of a file, and the annotations behind them.
fn all_heads(
    alloc: Global,
    tokens: &[Token],
    header_end: Place,
) -> Result<(FoundHeads, usize), SolveError>
    requires ended { IsEnded tokens.now }
    ensures reads { Answers (λ found. Read (heads_of found.0) found.1) result (Loop (head tokens.now header_end) ([], []) 0) }
    ensures flags { IfOk result (λ found. HasFlags found.0) }
    ensures within { IfOk result (λ found. found.1 < length tokens.now) }
{
    let mut sofar = FoundHeads {
        heads: Items::new(alloc),
        behind: Vec::new(alloc),
        behind_field: false,
        behind_head: false,
    };
    let mut at = 0;
    'heads: while begins_head(tokens, at) {
        let (more, next) = one_head(alloc, tokens, at, header_end, sofar)?;
        sofar = more;
        at = next;
    }
    Ok((sofar, at))
}

/// Whether a variable or a function begins there.
fn is_annotated(tokens: &[Token], at: usize) -> bool
    requires { at < length tokens.now }
    ensures { result ≡ spec.is_annotated (mark_at tokens.now at) }
{
    matches!(
        mark_at(tokens, at),
        Some(Mark::Var | Mark::Static | Mark::Func)
    )
}

/// The member that the annotations belong to, if there are any. Those of a file stand before none.
fn first_member(
    alloc: Global,
    tokens: &[Token],
    at: usize,
    behind: Items<Annotation>,
    behind_head: bool,
) -> Result<(Items<Member>, usize), SolveError>
    requires within { at < length tokens.now }
    requires ended { IsEnded tokens.now }
    requires flags { behind_head ≡ list_any spec.is_head_annotation behind }
    ensures reads { Answers (λ found. Read found.0 found.1) result (spec.first_member tokens.now anywhere behind at) }
    ensures within { IfOk result (λ found. found.1 < length tokens.now) }
{
    let mut members = Items::new(alloc);
    let place = match behind.get(0) {
        Some(first) => first.place,
        None => return Ok((members, at)),
    };
    if behind_head {
        return Err(refuse(tokens, at, Sought::Other));
    }
    let (tree, next) = annotated(alloc, tokens, at, place, behind)?;
    members.push(tree)?;
    Ok((members, next))
}

/// Past the end of the file, which is due.
fn file_end(tokens: &[Token], at: usize) -> Result<usize, SolveError>
    requires within { at < length tokens.now }
    requires ended { IsEnded tokens.now }
    ensures reads { Answers (λ next. Read tt next) result (token.Due tokens.now Sought.Other Mark.End at) }
{
    if sees(tokens, at, Mark::End) {
        Ok(at + 1)
    } else {
        Err(refuse(tokens, at, Sought::Other))
    }
}

/// The members behind the heads, and the end of the file.
fn rest(
    alloc: Global,
    tokens: &[Token],
    at: usize,
    heads: Items<Head>,
    first: Items<Member>,
) -> Result<(Script, usize), SolveError>
    requires within { at < length tokens.now }
    requires ended { IsEnded tokens.now }
    ensures reads { Answers (λ found. Read found.0 found.1) result (spec.rest tokens.now anywhere (token.place_at tokens.now 0) heads first at) }
{
    let place = place_at(tokens, 0);
    let FoundMembers {
        members,
        at: end,
        ..
    } = member_list(alloc, tokens, at, MAX_OPEN_CLASSES, first, 1)?;
    let past = file_end(tokens, end)?;
    Ok((
        Script {
            place,
            heads,
            members,
        },
        past,
    ))
}

/// The file behind its heads, where a variable or a function comes next.
fn with_first_member(
    alloc: Global,
    tokens: &[Token],
    at: usize,
    sofar: FoundHeads,
) -> Result<(Script, usize), SolveError>
    requires within { at < length tokens.now }
    requires ended { IsEnded tokens.now }
    requires flags { HasFlags sofar }
    ensures reads { Answers (λ found. Read found.0 found.1) result (spec.file_by tokens.now anywhere (token.place_at tokens.now 0) (heads_of sofar) true at) }
{
    let FoundHeads {
        heads,
        behind,
        behind_head,
        ..
    } = sofar;
    let before = Items::from_vec(behind);
    let (first, next) = first_member(alloc, tokens, at, before, behind_head)?;
    rest(alloc, tokens, next, heads, first)
}

/// The file behind its heads, where something else comes next.
fn without_first_member(
    alloc: Global,
    tokens: &[Token],
    at: usize,
    sofar: FoundHeads,
) -> Result<(Script, usize), SolveError>
    requires within { at < length tokens.now }
    requires ended { IsEnded tokens.now }
    requires flags { HasFlags sofar }
    ensures reads { Answers (λ found. Read found.0 found.1) result (spec.file_by tokens.now anywhere (token.place_at tokens.now 0) (heads_of sofar) false at) }
{
    let FoundHeads {
        heads,
        behind,
        behind_field,
        ..
    } = sofar;
    if behind_field {
        return Err(refuse(tokens, at, Sought::Other));
    }
    let all = with_annotations(heads, behind)?;
    rest(alloc, tokens, at, all, Items::new(alloc))
}

/// A file, and the place past its end.
fn file(alloc: Global, tokens: &[Token], header_end: Place) -> Result<(Script, usize), SolveError>
    requires ended { IsEnded tokens.now }
    ensures reads { Answers (λ found. Read found.0 found.1) result (spec.script tokens.now header_end 0) }
{
    let (sofar, at) = all_heads(alloc, tokens, header_end)?;
    if is_annotated(tokens, at) {
        with_first_member(alloc, tokens, at, sofar)
    } else {
        without_first_member(alloc, tokens, at, sofar)
    }
}

/// The tree of a file. `header_end` is the place just past the lines of its header: a `class_name` before it gives the
/// file its name, and one behind it is refused.
pub fn parse(alloc: Global, tokens: &[Token], header_end: Place) -> Result<Script, SolveError>
    requires ended { IsEnded tokens.now }

    // What is answered is the outcome of the reading, unless memory runs out, and so is a refusal.
    ensures reads { IsParsed tokens.now header_end result }
    // Nothing else is.
    ensures only { (o : Outcome Script) → spec.script tokens.now header_end 0 o → GivesTree result o }
{
    let (tree, _) = file(alloc, tokens, header_end)?;
    Ok(tree)
}
