// From the bytes of a script to what the machine runs.
ghost use Rattle.std.specs.Prelude.{◌≡◌, ◌≤◌, length};
ghost use Rattle.gd_syntax.specs.TokenReading.{IsEnded};
ghost use Rattle.gdrun.specs.FileReading.{IsRead, IsTokensRead};

use crate::single::script_of_tree;
use crate::taken;
use gd_header::header_end;
use gd_parser::parse;
use gd_syntax::{FirstScript, Place, SolveError, Token};
use gd_tokens::tokens;
use std::alloc::Global;

fn read_tokens(
    alloc: Global,
    tokens: &[Token],
    header_end: Place,
) -> Result<FirstScript, SolveError>
    requires { IsEnded tokens.now }
    ensures { IsTokensRead header_end tokens.now result }
{
    let tree = parse(alloc, tokens, header_end)?;
    taken::file(tokens)?;
    Ok(script_of_tree(alloc, &tree)?)
}

/// Reads the text of a script: its tokens, its tree, and what the machine runs of it.
pub fn read_script(alloc: Global, text: &[u8]) -> Result<FirstScript, SolveError>
    requires { length text.now ≤ 1048576 }
    ensures { IsRead text.now result }
{
    let list = tokens(alloc, text)?;
    read_tokens(alloc, list.as_slice(), header_end(text))
}
