// The rules take the reader of a whole expression as a parameter, so that each is proved by itself.
ghost use Rattle.std.specs.Prelude.{◌≡◌, ◌+◌, ◌<◌, ◌≤◌, ◌-◌, length, IfOk};
ghost use Rattle.gd_syntax.specs.TokenReading.{IsEnded};
ghost use Rattle.gd_syntax.specs.Reading.{Answers};
ghost use Rattle.gd_exprs.specs.Forms as spec;
ghost use Rattle.gd_exprs.specs.Nests.{Nests, IsFound, found};

use crate::found::Found;
use gd_syntax::{SolveError, Token};
use std::alloc::Global;

#[derive(Clone, Copy)]
pub struct Rules<'a, F> {
    pub alloc: Global,
    pub tokens: &'a [Token],
    /// How many levels there may still be.
    pub room: usize,
    pub inner: F,
}

impl<F: Fn(Global, &[Token], usize, usize, u8) -> Result<Found, SolveError>> Rules<'_, F> {
    /// A form of at most this level that is part of `more + 1` forms which have begun.
    pub fn inner(&self, at: usize, more: usize, level: u8) -> Result<Found, SolveError>
        requires nests { Nests (self.now.room - 1) (F.pre self.now.inner) (F.post self.now.inner) }
        requires within { at < length self.now.tokens.now }
        requires ended { IsEnded self.now.tokens.now }
        requires room { more + 1 ≤ self.now.room }
        ensures reads { Answers found result (spec.inner self.now.tokens.now self.now.room more level at) }
        ensures found { IfOk result (IsFound self.now.tokens.now (self.now.room - 1 - more) at) }
    {
        (self.inner)(self.alloc, self.tokens, at, self.room - 1 - more, level)
    }
}
