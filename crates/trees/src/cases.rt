// The lines of a case file.

/// What a text is read as.
#[derive(Clone, Copy)]
pub enum Kind {
    /// a file's tokens
    Tokens,
    /// the global name in a file's header
    Name,
    /// the place where a file's header ends
    Header,
    /// an expression at the beginning of a file
    Expression,
    /// a type at the beginning of a file
    Type,
    /// the type of a result at the beginning of a file
    Result,
    /// a file
    Script,
    /// what stands behind `func f()` in a file
    Body,
    /// the patterns of the one branch of a `match`
    Pattern,
    /// each front of a file, which is read or refused
    Fronts,
}

/// What is shown of a reading, or how it begins.
#[derive(Clone, Copy)]
pub enum Detail {
    /// the canonical form
    Plain,
    /// the canonical form with each place
    Places,
    /// the number of items or members
    Size,
    /// The number of forms that are open round an expression, or the line that a header ends before.
    Number(u32),
}

/// A line of a case file: `KIND: TEXT` or `KIND DETAIL: TEXT`.
#[derive(Clone, Copy)]
pub struct Case<'a> {
    pub kind: Kind,
    pub detail: Detail,
    /// the text with its escapes
    pub text: &'a str,
}

fn kind_of(word: &str) -> Option<Kind> {
    match word {
        "tokens" => Some(Kind::Tokens),
        "name" => Some(Kind::Name),
        "header" => Some(Kind::Header),
        "expression" => Some(Kind::Expression),
        "type" => Some(Kind::Type),
        "result" => Some(Kind::Result),
        "script" => Some(Kind::Script),
        "body" => Some(Kind::Body),
        "pattern" => Some(Kind::Pattern),
        "fronts" => Some(Kind::Fronts),
        _ => None,
    }
}

fn detail_of(word: &str) -> Option<Detail> {
    match word {
        "" => Some(Detail::Plain),
        "places" => Some(Detail::Places),
        "size" => Some(Detail::Size),
        _ => word.parse::<u32>().ok().map(|n| Detail::Number(n)),
    }
}

/// The case that a line is.
pub fn case_of(line: &str) -> Option<Case<'_>> {
    let (head, text) = line.split_once(':')?;
    let (kind, detail) = head.split_once(' ').unwrap_or((head, ""));
    Some(Case {
        kind: kind_of(kind)?,
        detail: detail_of(detail)?,
        text: text.strip_prefix(' ').unwrap_or(text),
    })
}
