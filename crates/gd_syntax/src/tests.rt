//! Refusals and words worked out by hand.
use super::*;
use std::alloc::Global;
use std::process::Abort;
use std::test::Fail;

fn text_of(alloc: Global, word: &str) -> Result<Text, Fail> {
    let mut text = Text::new(alloc);
    for c in word.chars() {
        text.push(c)?;
    }
    Ok(text)
}

fn name_of(alloc: Global, word: &str) -> Result<Name, Fail> {
    Ok(Name::from_text(text_of(alloc, word)?))
}

fn check_marks(
    rt: &(impl Abort + AllocGlobal),
    cases: &[(Sought, Mark, Mark, &str)],
) -> Result<(), Fail> {
    for (sought, mark, next, wanted) in cases {
        let kind = refusal(*sought, &Kind::Mark(*mark), &Kind::Mark(*next));
        assert_eq!(rt; kind.as_str(), *wanted, "{sought:?} {mark:?}");
    }
    Ok(())
}

#[test]
fn signs_that_stop_a_reading(rt: HostRuntime) -> Result<(), Fail> {
    check_marks(
        &rt,
        &[
            (
                Sought::Operand,
                Mark::Func,
                Mark::LParen,
                "Unsupported(lambda)",
            ),
            (Sought::Other, Mark::Func, Mark::LParen, "Syntax"),
            (Sought::Operand, Mark::Amp, Mark::Plus, "Syntax"),
            (
                Sought::Operand,
                Mark::Percent,
                Mark::Plus,
                "Unsupported(unique node)",
            ),
            (
                Sought::Node,
                Mark::Percent,
                Mark::Plus,
                "Unsupported(unique node)",
            ),
            (Sought::Other, Mark::Percent, Mark::Plus, "Syntax"),
            (Sought::LoadPath, Mark::RParen, Mark::Newline, "Syntax"),
            (
                Sought::LoadPath,
                Mark::RBracket,
                Mark::Newline,
                "Unsupported(computed load)",
            ),
            (
                Sought::LoadPath,
                Mark::Await,
                Mark::Newline,
                "Unsupported(await)",
            ),
            (
                Sought::Parameter,
                Mark::DotDot,
                Mark::Dot,
                "Unsupported(variadic)",
            ),
            (
                Sought::VarType,
                Mark::Newline,
                Mark::Indent,
                "Unsupported(property)",
            ),
            (Sought::VarEnd, Mark::Newline, Mark::Indent, "Syntax"),
            (
                Sought::VarEnd,
                Mark::Colon,
                Mark::Newline,
                "Unsupported(property)",
            ),
            (
                Sought::StaticFunc,
                Mark::Var,
                Mark::Newline,
                "Unsupported(static variable)",
            ),
            (Sought::Other, Mark::Var, Mark::Newline, "Syntax"),
            (Sought::AnnotationName, Mark::Var, Mark::Newline, "Syntax"),
            (
                Sought::Other,
                Mark::PowerAssign,
                Mark::Plus,
                "Unsupported(power)",
            ),
            (
                Sought::Other,
                Mark::Breakpoint,
                Mark::Newline,
                "Unsupported(breakpoint)",
            ),
        ],
    )
}

#[test]
fn words_that_stop_a_reading(rt: HostRuntime) -> Result<(), Fail> {
    let cases = [
        (Sought::Other, "float", "Unsupported(float)"),
        (Sought::AnnotationName, "float", "Unsupported(float)"),
        (Sought::AnnotationName, "rpc", "Unsupported(annotation)"),
        (Sought::Other, "rpc", "Syntax"),
        (Sought::LoadPath, "INF", "Unsupported(float)"),
        (Sought::LoadPath, "path", "Unsupported(computed load)"),
        (Sought::Operand, "typeof", "Unsupported(typeof)"),
        (Sought::Operand, "load", "Syntax"),
    ];
    for (sought, word, wanted) in &cases {
        let kind = Kind::Name(name_of(rt.alloc(), word)?);
        let found = refusal(*sought, &kind, &Kind::Mark(Mark::Newline));
        assert_eq!(rt; found.as_str(), *wanted, "{sought:?} {word}");
    }
    let text = Kind::Text(text_of(rt.alloc(), "a")?);
    let amp = refusal(Sought::Operand, &Kind::Mark(Mark::Amp), &text);
    assert_eq!(rt; amp.as_str(), "Unsupported(string name)");
    let caret = refusal(Sought::Operand, &Kind::Mark(Mark::Caret), &text);
    assert_eq!(rt; caret.as_str(), "Unsupported(node path)");
    Ok(())
}

#[test]
fn words_that_are_no_names(rt: HostRuntime) -> Result<(), Fail> {
    for word in ["float", "PI", "TAU", "INF", "NAN", "typeof", "load"] {
        assert!(rt; !name_of(rt.alloc(), word)?.is_plain(), "{word}");
    }
    for word in ["Float", "pi", "floats", "loa", "preloads", "_", "when"] {
        assert!(rt; name_of(rt.alloc(), word)?.is_plain(), "{word}");
    }
    Ok(())
}
