// Keywords by their first character.
ghost use Rattle.std.specs.Prelude.{◌≡◌};
ghost use Rattle.std.specs.List.{filter};
ghost use Rattle.gd_syntax.specs.Spellings.{spelled};
ghost use Rattle.gd_syntax.specs.Tokens.{keywords};
ghost use Rattle.gd_tokens.specs.FoundParts.{begins_with};

use gd_syntax::{KEYWORDS, Mark};

/// The keywords that begin with this character.
fn keywords_from(c: char) -> &'static [Mark]
    ensures { result.now ≡ filter (begins_with c) keywords }
{
    match c {
        'a' => &[Mark::And, Mark::As, Mark::Assert, Mark::Await],
        'b' => &[Mark::Break, Mark::Breakpoint],
        'c' => &[Mark::Class, Mark::ClassName, Mark::Const, Mark::Continue],
        'e' => &[Mark::Elif, Mark::Else, Mark::Enum, Mark::Extends],
        'f' => &[Mark::No, Mark::For, Mark::Func],
        'i' => &[Mark::If, Mark::In, Mark::Is],
        'm' => &[Mark::Match],
        'n' => &[Mark::Namespace, Mark::Not, Mark::Null],
        'o' => &[Mark::Or],
        'p' => &[Mark::Pass, Mark::Preload],
        'r' => &[Mark::Return],
        's' => &[Mark::This, Mark::Signal, Mark::Static, Mark::Super],
        't' => &[Mark::Trait, Mark::Yes],
        'v' => &[Mark::Var, Mark::Void],
        'w' => &[Mark::While],
        'y' => &[Mark::Yield],
        _ => &[],
    }
}

/// Those of the keywords that may be spelled so.
pub fn keywords_for(word: &[char]) -> &'static [Mark]
    ensures { spelled result.now word.now ≡ spelled keywords word.now }
{
    match word {
        [c, ..] => keywords_from(*c),
        [] => &KEYWORDS,
    }
}
