//! Commands of `clap` with positional arguments alone.
ghost use Rattle.std.specs.Prelude.{◌≡◌, false, IfOk};
ghost use Rattle.clap.specs.Simple.{app_of};
ghost use Rattle.clap.specs.Walk.{rule_of};
ghost use Rattle.command_words.specs.Commands as spec;

use crate::synopsis::Synopsis;
use clap::{Arg, Command};
use std::alloc::{AllocError, Global};

/// An argument with one value.
fn one<'w>(alloc: Global, name: &'w str) -> Arg<'w>
    ensures rule { rule_of result ≡ spec.one name.now }
    ensures local { result.global ≡ false }
{
    Arg::new(alloc, name).required(true)
}

/// An argument with one value or more.
fn many<'w>(alloc: Global, name: &'w str) -> Arg<'w>
    ensures rule { rule_of result ≡ spec.many name.now }
    ensures local { result.global ≡ false }
{
    one(alloc, name).num_args(1..)
}

/// A command without arguments, flags and options. Its words don't begin with its name.
fn bare<'w>(alloc: Global) -> Command<'w>
    ensures { app_of result ≡ spec.bare }
{
    Command::new(alloc, "")
        .no_binary_name(true)
        .disable_help_flag(true)
}

/// The command with these arguments and nothing else.
pub(crate) fn command_of<'w>(alloc: Global, synopsis: Synopsis) -> Result<Command<'w>, AllocError>
    ensures { IfOk result (λ command. app_of command ≡ spec.command_of synopsis) }
{
    let command = bare(alloc);
    match synopsis {
        Synopsis::Models => command
            .arg(one(alloc, "SCRIPT"))?
            .arg(one(alloc, "TARGET"))?
            .arg(many(alloc, "NAME=PATH")),
        Synopsis::Conversion => command
            .arg(one(alloc, "FORM"))?
            .arg(one(alloc, "META"))?
            .arg(one(alloc, "IN"))?
            .arg(one(alloc, "OUT")),
        Synopsis::Generation => command.arg(one(alloc, "N"))?.arg(one(alloc, "SEED")),
    }
}
