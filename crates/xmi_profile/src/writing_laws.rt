ghost use Rattle.std.specs.Prelude.{◌≡◌, ◌≢◌, ◌<◌, ◌≤◌, ℕ, false, List, Option, Some, All, AllPairs, Contains, IsTrue};
ghost use Rattle.mof_metamodel.specs.declared.desc.MetaDesc.{MetaDesc};
ghost use Rattle.mof_metamodel.specs.declared.desc.PropType.{PropType};
ghost use Rattle.mof_metamodel.specs.Characters.{is_identifier_text};
ghost use Rattle.mof_metamodel.specs.Metamodels.{class_count, class_at, props_of, prop_number};
ghost use Rattle.mof_metamodel.specs.WellMeta.{WellMeta};
ghost use Rattle.object_tables.specs.declared.value.Value.{Value};
ghost use Rattle.object_tables.specs.Kept.{Kept};
ghost use Rattle.object_tables.specs.declared.limit.TheConstants.{MAX_DEPTH, MAX_OBJECTS};
ghost use Rattle.object_tables.specs.Containment.{IsDepth};
ghost use Rattle.object_tables.specs.Models.{ModelData, IsLive, is_value_of, live_count};
ghost use Rattle.object_tables.specs.Sameness.{IsSame};
ghost use Rattle.object_tables.specs.Validity.{Valid};
ghost use Rattle.xmi_text.specs.Markup.{Markup};
ghost use Rattle.model_assembly.specs.declared.fault.Externs.{Externs};
ghost use Rattle.model_assembly.specs.declared.fault.Externs.TheVariants as externs;
ghost use Rattle.model_assembly.specs.declared.fault.ModelFault.{ModelFault};
ghost use Rattle.xmi_profile.specs.Canon.{spaced, value_text, canon_bytes};
ghost use Rattle.model_assembly.specs.Content.{Content};
ghost use Rattle.model_assembly.specs.Elements.{concrete_class};
ghost use Rattle.model_assembly.specs.Held.{IsHeld, IsHeldModel, MayBeWritten};
ghost use Rattle.model_assembly.specs.Profile.{class_name, prop_name};
ghost use Rattle.xmi_profile.specs.Reads.{IsRefused, Spells};
ghost use Rattle.model_assembly.specs.References.{words};
ghost use Rattle.model_assembly.specs.Source.{Source};
ghost use Rattle.model_assembly.specs.Values.{value_of};
ghost use Rattle.xmi_profile.specs.WrittenOrder.{written_order};
ghost use Rattle.xmi_profile.specs.WrittenTree.{written_tree};

use model_assembly::models_are_held;
use object_tables::Model;

/// What is written of a model is read as the same model, and as no other (XMI 2.5.1, clauses 7 and 9).
pub fn written_models_are_read()
    ensures read { (m : ModelData) → MayBeWritten m → (k : ModelData) × Spells m.meta externs.None (canon_bytes m) k × IsSame m k }
    ensures only { (m k : ModelData) → MayBeWritten m → Spells m.meta externs.None (canon_bytes m) k → IsSame m k }
{}

/// The same of a model of code: each is held.
pub fn models_are_read_back(model: &Model<'_>)
    requires valid { Valid model.now }
    requires depth { (o depth : ℕ) → IsLive model.now o → IsDepth model.now o depth → depth ≤ MAX_DEPTH }
    requires objects { live_count model.now ≤ MAX_OBJECTS }
    ensures read { (k : ModelData) × Spells model.now.meta externs.None (canon_bytes model.now) k × IsSame model.now k }
    ensures only { (k : ModelData) → Spells model.now.meta externs.None (canon_bytes model.now) k → IsSame model.now k }
    ensures accepted { (fault : ModelFault) → ¬ IsRefused model.now.meta externs.None (canon_bytes model.now) fault }
{
    models_are_held(model);
}

/// What is written of a model is refused for no fault.
pub fn written_models_are_accepted()
    ensures { (m : ModelData) (fault : ModelFault) → MayBeWritten m → ¬ IsRefused m.meta externs.None (canon_bytes m) fault }
{}

/// Models of one metamodel that aren't the same have different texts.
pub fn texts_tell_models()
    ensures { (m k : ModelData) → MayBeWritten m → MayBeWritten k → k.meta ≡ m.meta → canon_bytes m ≡ canon_bytes k → IsSame m k }
{}

/// A tree of elements is one model, up to the numbers of its objects, and so are bytes.
pub fn one_model()
    ensures tree { (s : Source) (first second : ModelData) → Content s first → Content s second → IsSame first second }
    ensures bytes { (meta : MetaDesc) (outside : Externs) (text : List ℕ) (first second : ModelData) → Spells meta outside text first → Spells meta outside text second → IsSame first second }
{}

/// The text that a value is written as is read as the value, at an attribute of any type that the value has (XML Schema 1.0 part 2,
/// 3.2 and 3.3).
pub fn values_are_read_back()
    ensures { (meta : MetaDesc) (type : Option PropType) (v : Value) → WellMeta meta → IsTrue (is_value_of meta type v) → IsHeld v → value_of meta type (value_text meta v) ≡ Some v }
{}

/// Identifiers that are written with one space between are read as the words that they are (XMI 2.5.1, 7.10).
pub fn identifiers_are_read_back()
    ensures { (ids : List (List ℕ)) → All (λ (id : List ℕ). IsTrue (is_identifier_text id)) ids → words (spaced ids) ≡ ids }
{}

/// What is written of a model is a document, of the model's tree (XMI 2.5.1, clause 9).
pub fn documents_are_written()
    ensures { (m : ModelData) → Kept m → IsHeldModel m → Markup (canon_bytes m) (written_tree m) }
{}

/// Each object of a valid model that is no deeper than `MAX_DEPTH` stands once in the order in which objects are written (XMI 2.5.1,
/// clause 9).
pub fn objects_are_written_once()
    ensures once { (m : ModelData) → Valid m → AllPairs (λ x y. x ≢ y) (written_order m) }
    ensures live { (m : ModelData) (o : ℕ) → Valid m → Contains (written_order m) o → IsLive m o }
    ensures all { (m : ModelData) (o : ℕ) → Valid m → ((a depth : ℕ) → IsLive m a → IsDepth m a depth → depth ≤ MAX_DEPTH) → IsLive m o → Contains (written_order m) o }
{}

/// The names of a class and of a property are read as the class and the property (XMI 2.5.1, clause 7).
pub fn names_are_read_back()
    ensures classes { (meta : MetaDesc) (c : ℕ) → WellMeta meta → c < class_count meta → (class_at meta c).is_abstract ≡ false → concrete_class meta (class_name meta c) ≡ Some c }
    ensures properties { (meta : MetaDesc) (c p : ℕ) → WellMeta meta → c < class_count meta → Contains (props_of meta c) p → prop_number meta c (prop_name meta p) ≡ Some p }
{}
