ghost use Rattle.std.specs.Prelude.{◌≡◌};
ghost use Rattle.ocl_parser.specs.Readings.{Gives, expr_read};

use ocl_parser::{Halt, Stop, read_expr};
use ql_lex::Tokens;
use qv_syntax::Expr;
use std::alloc::Global;

/// An expression, where so many levels of nesting are left. Behind the last token none is read.
#[tactic(auto, using(crate::proofs::PastLaws::past_halts))]
pub(crate) fn read_expression(
    alloc: Global,
    tokens: &Tokens<'_>,
    at: usize,
    levels: usize,
) -> Result<(Expr, usize), Halt>
    ensures { Gives result (expr_read tokens.now.lexemes levels at) }
{
    if at > tokens.len() {
        return Err(Halt::Stop(Stop::Stuck { at }));
    }
    read_expr(alloc, tokens, at, levels)
}
