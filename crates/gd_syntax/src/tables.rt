// The tables of the code and those of the definitions.
ghost use Rattle.std.specs.Prelude.{◌≡◌};
ghost use Rattle.gd_syntax.specs.declared.token.TheConstants.{KEYWORDS, SIGNS};
ghost use Rattle.gd_syntax.specs.Tokens.{keywords, signs};

/// The keywords and the signs of the code are those of the language.
pub fn tables_of_the_language()
    ensures keywords { KEYWORDS ≡ keywords }
    ensures signs { SIGNS ≡ signs }
{}
