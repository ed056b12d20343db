// Laws of what is taken and run.
ghost use Rattle.std.specs.Prelude.{◌≡◌, ℕ, List};
ghost use Rattle.gd_syntax.specs.declared.token.Token.{Token};
ghost use Rattle.gd_syntax.specs.declared.tree.expr.Expr.{Expr};
ghost use Rattle.gd_syntax.specs.FirstRun.{sum_value};
ghost use Rattle.gd_syntax.specs.Reading.{HasOneOutcome};
ghost use Rattle.gdrun.specs.Single.{chain_of};
ghost use Rattle.gdrun.specs.Taken.{file};
ghost use Rattle.gdrun.specs.Values.{IsChain, value_of};

/// Each list of tokens is taken, or is refused at one token, wherever the reading begins.
pub fn what_is_taken()
    ensures one { (tokens : List Token) (at : ℕ) → HasOneOutcome (file tokens at) }
{}

/// What the machine computes of a chain of operators is the value of its tree.
pub fn chains_keep_their_value()
    ensures { (x : Expr) → IsChain x → sum_value (chain_of x).sum ≡ value_of x }
{}
