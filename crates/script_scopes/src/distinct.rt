ghost use Rattle.std.specs.Prelude.{◌≡◌, ◌++◌, ◌∷◌, [], map, IfOk, OnOk, OnErr, if◌then◌else◌};
ghost use Rattle.std.specs.Set.{is_member};
ghost use Rattle.mof_metamodel.specs.Characters.{same_name};
ghost use Rattle.script_scopes.specs.ScriptNames.{each_once as distinct};

use mof_metamodel::{NameTable, NoMemory, Seq, Text};
use std::alloc::Global;

/// Puts a name behind the others, if it isn't among them. After `NoMemory` they are as they were.
pub fn add_new(met: &mut NameTable<u32>, name: Text) -> Result<(), NoMemory>
    ensures ok { OnOk result (map (λ e. e.0) met.new ≡ map (λ e. e.0) met.old ++ (if is_member same_name (map (λ e. e.0) met.old) name then [] else name ∷ [])) }
    ensures err { OnErr result (met.new ≡ met.old) }
{
    if met.contains(&name) {
        return Ok(());
    }
    met.put(name, 0)?;
    Ok(())
}

/// Names each once, in the order of their first places, so that the place of a name is quickly found.
pub fn each_once(alloc: Global, names: Seq<Text>) -> Result<NameTable<u32>, NoMemory>
    ensures { IfOk result (λ met. map (λ e. e.0) met ≡ distinct names) }
{
    let mut met = NameTable::new(alloc);
    for name in names.into_vec() {
        add_new(&mut met, name)?;
    }
    Ok(met)
}

/// Puts a name behind the others, if it isn't among them. The table has the others.
fn add_once(
    alloc: Global,
    name: &Text,
    met: &mut NameTable<u32>,
    out: &mut Seq<Text>,
) -> Result<(), NoMemory>
    requires { map (λ e. e.0) met.old ≡ out.old }
    ensures met { OnOk result (map (λ e. e.0) met.new ≡ out.new) }
    ensures out { OnOk result (out.new ≡ out.old ++ (if is_member same_name out.old name.now then [] else name.now ∷ [])) }
{
    if met.contains(name) {
        return Ok(());
    }
    met.put(name.duplicate(alloc)?, 0)?;
    let text = name.duplicate(alloc)?;
    out.push(text)
}

/// Names each once, in the order of their first places, as a list.
pub fn each_once_listed(alloc: Global, names: &[Text]) -> Result<Seq<Text>, NoMemory>
    ensures { IfOk result (λ out. out ≡ distinct names.now) }
{
    let mut met = NameTable::new(alloc);
    let mut out = Seq::new(alloc);
    for name in names {
        add_once(alloc, name, &mut met, &mut out)?;
    }
    Ok(out)
}
