ghost use Rattle.std.specs.Prelude.{◌≡◌, length, IfOk, IfErr, IsOkUnless};
ghost use Rattle.ql_lex.specs.Tokens.{IsLexed};
ghost use Rattle.qv_syntax.specs.declared.script.Script.{Script as AnyScript};
ghost use Rattle.qvtr_parser.specs.Grammar.{IsScript};
ghost use Rattle.script_files.specs.Scripts.{SpellsScript, IsParserError, IsScriptError};

use crate::error::ScriptError;
use ql_lex::{Tokens, lex};
use qv_syntax::Script;
use qvtr_parser::parse_script;
use std::alloc::Global;

/// The tokens of a text.
fn tokens_of<'t>(alloc: Global, bytes: &'t [u8]) -> Result<Tokens<'t>, ScriptError>
    ensures ok { IfOk result (λ t. IsLexed bytes.now t.lexemes) }
    ensures end { IfOk result (λ t. t.end ≡ length bytes.now) }
    ensures fault { IfErr result (IsScriptError bytes.now) }
{
    match lex(alloc, bytes) {
        Ok(tokens) => Ok(tokens),
        Err(error) => Err(ScriptError::from(error)),
    }
}

/// The script that tokens are.
fn parsed(alloc: Global, tokens: &Tokens<'_>) -> Result<Script, ScriptError>
    ensures ok { IfOk result (IsScript tokens.now.lexemes) }
    ensures fault { IfErr result (IsParserError tokens.now) }
{
    match parse_script(alloc, tokens) {
        Ok(script) => Ok(script),
        Err(error) => Err(ScriptError::from(error)),
    }
}

/// The script that a text spells (QVT 1.3, section 7.13, the concrete syntax).
///
/// # Errors
///
/// `Tokens`: the first fault of its tokens, or that it has more than `MAX_SCRIPT` bytes. `Parse`: where its tokens stop beginning a
/// script. `Limit`: where they nest too deeply. `NoMemory`.
pub fn read_script(alloc: Global, bytes: &[u8]) -> Result<Script, ScriptError>
    // What is answered is spelled.
    ensures ok { IfOk result (SpellsScript bytes.now) }
    // A fault that is answered is the one that is told.
    ensures fault { IfErr result (IsScriptError bytes.now) }
    // What a text spells is answered, unless memory could not be had.
    ensures only { (s : AnyScript) → SpellsScript bytes.now s → IsOkUnless result ScriptError.NoMemory }
{
    let tokens = tokens_of(alloc, bytes)?;
    parsed(alloc, &tokens)
}
