// Where a value ends.
ghost use Rattle.std.specs.Prelude.{◌≡◌, ◌≤◌, ◌<◌, ◌+◌, ◌^◌, length, IfSome};
ghost use Rattle.scene_syntax.specs.Values as spec;
ghost use Rattle.text_scene.specs.ValueParts.{inside_of};

use crate::characters::line_end_len;

/// Whether a place of a value is in a string, and there behind a `\`.
#[derive(Clone, Copy)]
enum Inside {
    Outside,
    Quoted,
    Escaped,
}

fn inside_after(inside: Inside, c: char) -> Inside
    ensures { inside_of result ≡ spec.inside_after (inside_of inside) c }
{
    match inside {
        Inside::Outside => {
            if c == '"' {
                Inside::Quoted
            } else {
                Inside::Outside
            }
        }
        Inside::Quoted => {
            if c == '"' {
                Inside::Outside
            } else if c == '\\' {
                Inside::Escaped
            } else {
                Inside::Quoted
            }
        }
        Inside::Escaped => Inside::Quoted,
    }
}

fn opens(c: char) -> bool
    ensures { result ≡ spec.opens c }
{
    c == '(' || c == '[' || c == '{'
}

fn closes(c: char) -> bool
    ensures { result ≡ spec.closes c }
{
    c == ')' || c == ']' || c == '}'
}

/// How many brackets are open behind a character.
fn depth_after(inside: Inside, depth: usize, c: char) -> usize
    requires { depth < 2 ^ 31 }
    ensures value { result ≡ spec.depth_after (inside_of inside) depth c }
    ensures bound { result ≤ depth + 1 }
{
    match inside {
        Inside::Outside => {
            if opens(c) {
                depth + 1
            } else if closes(c) {
                depth.saturating_sub(1)
            } else {
                depth
            }
        }
        Inside::Quoted => depth,
        Inside::Escaped => depth,
    }
}

fn is_closed(inside: Inside, depth: usize) -> bool
    ensures { result ≡ spec.is_closed (inside_of inside) depth }
{
    match inside {
        Inside::Outside => depth == 0,
        Inside::Quoted => false,
        Inside::Escaped => false,
    }
}

/// How many characters the value has that begins the text. None where a string or a bracket is open at the end of the text.
#[tactic(auto, unfolding(scene_syntax::specs::Values::value_len))]
pub fn value_len(text: &[char]) -> Option<usize>
    requires { length text.now ≤ 2 ^ 30 }
    ensures value { result ≡ spec.value_len spec.outside 0 text.now }
    ensures bound { IfSome result (λ n. n ≤ length text.now) }
{
    let mut inside = Inside::Outside;
    let mut depth = 0;
    let mut n = 0;
    let mut rest = text;
    while let [c, after @ ..] = rest {
        if is_closed(inside, depth) && line_end_len(rest) > 0 {
            return Some(n);
        }
        depth = depth_after(inside, depth, *c);
        inside = inside_after(inside, *c);
        n += 1;
        rest = after;
    }
    if is_closed(inside, depth) {
        Some(n)
    } else {
        None
    }
}
