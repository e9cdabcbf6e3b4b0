ghost use Rattle.std.specs.Prelude.{◌≡◌, ◌∷◌, IfOk};
ghost use Rattle.ocl_parser.specs.Moves.{refused, to};
ghost use Rattle.ocl_parser.specs.Answers.{made};
ghost use Rattle.ocl_parser.specs.declared.state.State.TheVariants as states;

use crate::frame::Frame;
use crate::stack::Stack;
use crate::state::{Action, State};
use mof_metamodel::NoMemory;

/// Opens a construct whose next part is an expression.
pub(crate) fn open(stack: &mut Stack, frame: Frame) -> Result<Action, NoMemory>
    ensures { IfOk result (λ o. made stack.new o ≡ to (frame ∷ stack.old) states.Operand) }
{
    stack.push(frame)?;
    Ok(Action::Read(State::Operand))
}

/// Opens a construct whose next part is a type.
pub(crate) fn open_type(stack: &mut Stack, frame: Frame) -> Result<Action, NoMemory>
    ensures { IfOk result (λ o. made stack.new o ≡ to (frame ∷ stack.old) states.Type) }
{
    stack.push(frame)?;
    Ok(Action::Read(State::Type))
}

/// Puts a construct back, which the symbol does not fit.
pub(crate) fn refuse(stack: &mut Stack, frame: Frame) -> Result<Action, NoMemory>
    ensures { IfOk result (λ o. made stack.new o ≡ refused (frame ∷ stack.old)) }
{
    stack.push(frame)?;
    Ok(Action::Refused)
}
