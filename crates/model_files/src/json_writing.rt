ghost use Rattle.std.specs.Prelude.{◌≡◌, ℕ, List, [], ◌∷◌, ◌++◌, Some, IfOk};
ghost use Rattle.serde_json.specs.Read.{read};
ghost use Rattle.model_files.specs.CanonJson.{canon_json, model_data};

use crate::json_values::model_value;
use mof_metamodel::{NoMemory, Seq};
use object_tables::Model;
use std::alloc::Global;

/// The text of a model as JSON: one line, with the objects by number and each slot that isn't empty. The line is read back as the
/// same value. It takes time and memory by
/// the length of the text, with a logarithm for the order of names.
pub fn write_json(alloc: Global, model: &Model<'_>) -> Result<Seq<u8>, NoMemory>
    ensures text { IfOk result (λ bytes. bytes ≡ canon_json model.now) }
    ensures reads { IfOk result (λ bytes. (line : List ℕ) × (bytes ≡ line ++ 10 ∷ []) × (read line ≡ Some (model_data model.now))) }
{
    let text = model_value(alloc, model)?.to_string(alloc)?;
    let mut bytes = Seq::from_vec(text.into_bytes());
    bytes.push(b'\n')?;
    Ok(bytes)
}
