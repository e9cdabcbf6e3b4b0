//! Texts, one behind the other.
ghost use Rattle.std.specs.Prelude.{◌≡◌, ◌++◌, map, IfOk, OnOk};
ghost use Rattle.std.specs.List.{concat};

use mof_metamodel::{NoMemory, Seq};
use std::alloc::Global;

/// Puts texts behind a text, one behind the other.
pub fn add_all(out: &mut Vec<u8>, texts: &[&[u8]]) -> Result<(), NoMemory>
    ensures { OnOk result (out.new.items ≡ out.old.items ++ concat (map (λ t. t.now) texts.now)) }
{
    for text in texts {
        out.extend_from_slice(text)?;
    }
    Ok(())
}

/// Texts, one behind the other.
pub fn concatenate(alloc: Global, texts: &[&[u8]]) -> Result<Seq<u8>, NoMemory>
    ensures { IfOk result (λ text. text ≡ concat (map (λ t. t.now) texts.now)) }
{
    let mut all = Vec::new(alloc);
    add_all(&mut all, texts)?;
    Ok(Seq::from_vec(all))
}
