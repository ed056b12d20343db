// Why a reading stops at a token.
ghost use Rattle.std.specs.Prelude.{◌≡◌};
ghost use Rattle.gd_syntax.specs.Refusals as spec;

use crate::fault::{FaultKind, Form};
use crate::token::{Kind, Mark};

/// What could come where a reading stops.
#[derive(Clone, Copy, Debug, PartialEq, Eq)]
pub enum Sought {
    /// An operand of an expression.
    Operand,
    /// The first name of a node path, after `$`.
    Node,
    /// The path of `load`, or the bracket after it.
    LoadPath,
    Parameter,
    /// The type of a variable, after its `:`.
    VarType,
    /// The end of a variable, after its type or value.
    VarEnd,
    /// What `static` may stand before.
    StaticFunc,
    /// The name after `@`.
    AnnotationName,
    Other,
}

/// The forms that are named wherever their token stops a reading.
fn word_form(kind: &Kind) -> Option<Form>
    ensures { result ≡ spec.word_form kind.now }
{
    match kind {
        Kind::Name(name) => {
            if name.is_float_word() {
                Some(Form::Float)
            } else if name.is_typeof() {
                Some(Form::Typeof)
            } else {
                None
            }
        }
        Kind::Mark(mark) => word_mark(*mark),
        _ => None,
    }
}

fn word_mark(mark: Mark) -> Option<Form>
    ensures { result ≡ spec.word_form (Kind.Mark mark) }
{
    match mark {
        Mark::Await => Some(Form::Await),
        Mark::Breakpoint => Some(Form::Breakpoint),
        Mark::Power | Mark::PowerAssign => Some(Form::Power),
        _ => None,
    }
}

/// `&` and `^` count where a string follows.
fn text_form(form: Form, next: &Kind) -> Option<Form>
    ensures { result ≡ spec.text_form form next.now }
{
    match next {
        Kind::Text(_) => Some(form),
        _ => None,
    }
}

fn sought_mark(sought: Sought, mark: Mark, next: &Kind) -> Option<Form>
    ensures { result ≡ spec.sought_form sought (Kind.Mark mark) next.now }
{
    match (sought, mark) {
        (Sought::Operand, Mark::Func) => Some(Form::Lambda),
        (Sought::Operand, Mark::Amp) => text_form(Form::StringName, next),
        (Sought::Operand, Mark::Caret) => text_form(Form::NodePath, next),
        (Sought::Operand | Sought::Node, Mark::Percent) => Some(Form::UniqueNode),
        (Sought::LoadPath, Mark::RParen) => None,
        (Sought::LoadPath, _) => Some(Form::ComputedLoad),
        (Sought::Parameter, Mark::Dot | Mark::DotDot) => Some(Form::Variadic),
        (Sought::VarType, Mark::Newline) => Some(Form::Property),
        (Sought::VarEnd, Mark::Colon) => Some(Form::Property),
        (Sought::StaticFunc, Mark::Var) => Some(Form::StaticVariable),
        _ => None,
    }
}

fn sought_form(sought: Sought, kind: &Kind, next: &Kind) -> Option<Form>
    ensures { result ≡ spec.sought_form sought kind.now next.now }
{
    match (sought, kind) {
        (_, Kind::Mark(mark)) => sought_mark(sought, *mark, next),
        (Sought::LoadPath, _) => Some(Form::ComputedLoad),
        (Sought::AnnotationName, Kind::Name(_)) => Some(Form::Annotation),
        _ => None,
    }
}

/// Why no rule goes on with a token, before the one that follows it.
#[tactic(auto, unfolding(crate::specs::Refusals::refusal))]
pub fn refusal(sought: Sought, kind: &Kind, next: &Kind) -> FaultKind
    ensures { result ≡ spec.refusal sought kind.now next.now }
{
    let form = match word_form(kind) {
        Some(form) => Some(form),
        None => sought_form(sought, kind, next),
    };
    match form {
        Some(form) => FaultKind::Unsupported(form),
        None => FaultKind::Syntax,
    }
}
