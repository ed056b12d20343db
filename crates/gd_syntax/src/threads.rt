// What threads may hand to one another, and share.
use crate::fault::SolveError;
use crate::token::Token;
use crate::tree::Script;

fn crosses<T: Send + Sync>(_: &T) {}

/// Threads may hand to one another, and share, tokens, trees and faults.
pub fn may_cross(token: &Token, script: &Script, error: &SolveError) {
    crosses(token);
    crosses(script);
    crosses(error);
}
