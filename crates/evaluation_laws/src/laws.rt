ghost use Rattle.std.specs.Prelude.{◌≡◌, ◌⊎◌, ℕ, Bool, IsTrue, List, [], ◌∷◌, codes, Option, None, Some, false, length, slice_get, Contains};
ghost use Rattle.mof_metamodel.specs.declared.desc.MetaDesc.{MetaDesc};
ghost use Rattle.object_tables.specs.declared.value.Value.{Value};
ghost use Rattle.object_tables.specs.Models.{ModelData};
ghost use Rattle.qv_syntax.specs.declared.ty.Ty.TheVariants as types;
ghost use Rattle.qv_syntax.specs.declared.type_tree.Kind.TheVariants as kinds;
ghost use Rattle.qv_syntax.specs.declared.typed.Typed.{Typed};
ghost use Rattle.qv_syntax.specs.declared.query.Query.{Query};
ghost use Rattle.qv_syntax.specs.declared.program.Program.{Program};
ghost use Rattle.qv_syntax.specs.declared.program.Rel.{Rel};
ghost use Rattle.qv_syntax.specs.declared.program.Var.{Var};
ghost use Rattle.qv_syntax.specs.declared.program.Dom.{Dom};
ghost use Rattle.qv_syntax.specs.declared.program.Tmpl.{Tmpl};
ghost use Rattle.qv_syntax.specs.declared.program.Item.{Item};
ghost use Rattle.qv_syntax.specs.declared.program.ItemValue.TheVariants as items;
ghost use Rattle.qv_syntax.specs.declared.program.Conj.TheVariants as conjuncts;
ghost use Rattle.qv_syntax.specs.Types.{has_objects};
ghost use Rattle.qv_syntax.specs.TypedTrees.{Typing, Variables, IsTyped};
ghost use Rattle.qv_syntax.specs.Parts.{CallsQuery, HasItem};
ghost use Rattle.qv_syntax.specs.Relations.{IsModelDomain, IsTemplateOf, IsDataVariable};
ghost use Rattle.qv_syntax.specs.ProgramTypes.{context_of, typing_of, variables_of};
ghost use Rattle.qvtr_semantics.specs.declared.datum.Datum.{Datum};
ghost use Rattle.qvtr_semantics.specs.declared.datum.Datum.TheVariants.{Val};
ghost use Rattle.qvtr_semantics.specs.declared.out.Out.{Out};
ghost use Rattle.qvtr_semantics.specs.declared.out.Out.TheVariants as outs;
ghost use Rattle.qvtr_semantics.specs.Outs.{datum_of};
ghost use Rattle.qvtr_semantics.specs.Expressions.{Scope, setting, queries_within, scope_of, value, value_for};
ghost use Rattle.qvtr_semantics.specs.Templates.{Values};
ghost use Rattle.qvtr_semantics.specs.Bindings.{Source};
ghost use Rattle.qvtr_semantics.specs.Calls.{RelationCall, call_of};
ghost use Rattle.evaluation_laws.specs.TypedValues.{IsDatumOf, IsDatumOfTyping, IsValueOf, IsValueOfTyping, AreArguments};
ghost use Rattle.evaluation_laws.specs.Literals.{HasStorableLiterals};
ghost use Rattle.evaluation_laws.specs.Evaluable.{IsEvaluable};
ghost use Rattle.evaluation_laws.specs.Scopes.{HasValuesOfTypes, HasValuesOfTypings, IsValued, AreValued, AreRootsGiven};
ghost use Rattle.evaluation_laws.specs.Sources.{MeetsSource};
ghost use Rattle.evaluation_laws.specs.Held.{IsHeld, IsAllowed};
ghost use Rattle.evaluation_laws.specs.SmallValues.{colors, no_models, color, color_of, text_of, number_of};

/// Types are kept: over models that are kept, the value of an expression that is typed, of whose variables each that it names has a value
/// of its type, is null, invalid, or a value of its type; so it is for a binding of the variables of a relation.
pub fn types_are_kept()
    ensures bindings { (metas : List MetaDesc) (program : Program) (models : List ModelData) → IsEvaluable metas program models → (rel : Rel) (e : Typed) (t : Typing) (b : Values) → IsTyped (context_of metas program) (variables_of rel) e t
        → HasStorableLiterals e → AreValued metas (setting program models) rel e b → IsValueOf metas (setting program models) t.ty (value_for program models e b) }
    ensures scopes { (metas : List MetaDesc) (program : Program) (models : List ModelData) → IsEvaluable metas program models → (vars : Variables) (e : Typed) (t : Typing) (scope : Scope) → IsTyped (context_of metas program) vars e t
        → HasStorableLiterals e → HasValuesOfTypes metas (setting program models) e vars scope → IsValueOf metas (setting program models) t.ty (value program models e scope) }
{}

/// A query gives null, invalid, or a value of its result's type for arguments of its parameters' types, however many calls may be made.
pub fn queries_keep_types()
    ensures { (metas : List MetaDesc) (program : Program) (models : List ModelData) → IsEvaluable metas program models → (n number : ℕ) (query : Query) (args : List Out) → slice_get program.queries number ≡ Some query
        → AreArguments metas (setting program models) query.params args
        → IsValueOf metas (setting program models) query.result (queries_within program.queries (setting program models) n number args) }
{}

/// Models are kept: where an expression calls no query that gives objects, the objects of its value are of the model of its typing. A query
/// has no model: what it gives may come from any, and stands beside objects of one.
pub fn models_are_kept()
    ensures bindings { (metas : List MetaDesc) (program : Program) (models : List ModelData) → IsEvaluable metas program models → (rel : Rel) (e : Typed) (t : Typing) (b : Values) → IsTyped (context_of metas program) (variables_of rel) e t
        → HasStorableLiterals e → ((number : ℕ) (query : Query) → CallsQuery e number → slice_get program.queries number ≡ Some query → has_objects query.result ≡ false)
        → AreValued metas (setting program models) rel e b → IsValueOfTyping metas (setting program models) t (value_for program models e b) }
    ensures scopes { (metas : List MetaDesc) (program : Program) (models : List ModelData) → IsEvaluable metas program models → (vars : Variables) (e : Typed) (t : Typing) (scope : Scope) → IsTyped (context_of metas program) vars e t
        → HasStorableLiterals e → ((number : ℕ) (query : Query) → CallsQuery e number → slice_get program.queries number ≡ Some query → has_objects query.result ≡ false)
        → HasValuesOfTypings metas (setting program models) e vars scope → IsValueOfTyping metas (setting program models) t (value program models e scope) }
{}

/// A demanded value goes into its slot: of an item of a template whose expression's value is a value of a data type, this may stand at the
/// item's property, and is read there as it was demanded.
pub fn demanded_values_go_into_slots()
    ensures { (metas : List MetaDesc) (program : Program) (models : List ModelData) → IsEvaluable metas program models → (rel : Rel) → Contains program.rels rel → (dom : Dom) (d : IsModelDomain program rel dom) (t : Tmpl) → IsTemplateOf dom t
        → (item : Item) → HasItem t item → (e : Typed) → item.value ≡ items.Expr e
        → (scope : Scope) → HasValuesOfTypes metas (setting program models) e (variables_of rel) scope → (model : ModelData) → slice_get models d.model ≡ Some model
        → (number : ℕ) (v : Value) → datum_of (value program models e scope) ≡ Some (Val number v) → IsHeld model.meta item.prop.0 d.slot.meta number v }
{}

/// The value of an equation, where it is neither null nor invalid, is one that the equation's variable may have, and of its type.
pub fn values_of_equations_are_allowed()
    ensures whens { (metas : List MetaDesc) (program : Program) (models : List ModelData) → IsEvaluable metas program models → (number : ℕ) (rel : Rel) → slice_get program.rels number ≡ Some rel
        → (place v : ℕ) (e : Typed) → slice_get rel.whens place ≡ Some (conjuncts.Equation v e)
        → (scope : Scope) → HasValuesOfTypes metas (setting program models) e (variables_of rel) scope → (var : Var) → slice_get rel.vars v ≡ Some var
        → (d : Datum) → datum_of (value program models e scope) ≡ Some d → IsAllowed metas (setting program models) var d }
    ensures wheres { (metas : List MetaDesc) (program : Program) (models : List ModelData) → IsEvaluable metas program models → (number : ℕ) (rel : Rel) → slice_get program.rels number ≡ Some rel
        → (place v : ℕ) (e : Typed) → slice_get rel.wheres place ≡ Some (conjuncts.Equation v e)
        → (scope : Scope) → HasValuesOfTypes metas (setting program models) e (variables_of rel) scope → (var : Var) → slice_get rel.vars v ≡ Some var
        → (d : Datum) → datum_of (value program models e scope) ≡ Some d → IsAllowed metas (setting program models) var d }
{}

/// A binding of the source of a relation gives each universal variable a value of its type and model, where the roots that come from outside, by
/// a call of a relation that isn't top, give data variables values of theirs. Where not of all universal variables a value is asked, so it is
/// for the data variables, and for those of which it is.
pub fn source_values_are_of_their_types()
    ensures sources { (metas : List MetaDesc) (program : Program) (models : List ModelData) → IsEvaluable metas program models
        → (number : ℕ) (rel : Rel) → slice_get program.rels number ≡ Some rel → (roots b : Values) → Source program models rel roots b
        → (rel.top ≡ false → AreRootsGiven metas (setting program models) rel roots)
        → (v : ℕ) → Contains rel.universal v → IsValued metas (setting program models) rel b v }
    ensures parts { (metas : List MetaDesc) (program : Program) (models : List ModelData) → IsEvaluable metas program models
        → (number : ℕ) (rel : Rel) → slice_get program.rels number ≡ Some rel → (asked : ℕ → Bool) (roots b : Values)
        → MeetsSource program models rel (λ v. IsTrue (asked v)) roots b
        → (rel.top ≡ false → AreRootsGiven metas (setting program models) rel roots)
        → (v : ℕ) → Contains rel.universal v → IsDataVariable rel v ⊎ IsTrue (asked v) → IsValued metas (setting program models) rel b v }
{}

/// The variables of a relation to which a binding gives values of their types have values of their types, and models, in the binding's scope.
pub fn bindings_are_scopes()
    ensures types { (metas : List MetaDesc) (program : Program) (models : List ModelData) (rel : Rel) (e : Typed) (b : Values) → AreValued metas (setting program models) rel e b
        → HasValuesOfTypes metas (setting program models) e (variables_of rel) (scope_of b) }
    ensures typings { (metas : List MetaDesc) (program : Program) (models : List ModelData) (rel : Rel) (e : Typed) (b : Values) → AreValued metas (setting program models) rel e b
        → HasValuesOfTypings metas (setting program models) e (variables_of rel) (scope_of b) }
{}

/// A text of storable characters is a String, and no Integer; an unstorable one is no value. A literal of an enumeration is one of its
/// literals. A Set of Integers is one, and no Bag; the empty Set has elements of the type of null.
pub fn small_values_are_of_their_types()
    ensures text { IsDatumOf colors no_models types.Str (text_of (codes "a")) }
    ensures unstorable { ¬ IsDatumOf colors no_models types.Str (text_of (0 ∷ [])) }
    ensures number { ¬ IsDatumOf colors no_models types.Int (text_of (codes "1")) }
    ensures literal { IsDatumOf colors no_models color (color_of 1) }
    ensures beyond { ¬ IsDatumOf colors no_models color (color_of 2) }
    ensures set { IsValueOf colors no_models (types.Coll kinds.Set types.Int) (outs.Many kinds.Set (number_of 1 ∷ number_of 2 ∷ [])) }
    ensures bag { ¬ IsValueOf colors no_models (types.Coll kinds.Bag types.Int) (outs.Many kinds.Set []) }
    ensures empty { IsValueOf colors no_models (types.Coll kinds.Set types.Null) (outs.Many kinds.Set []) }
{}

/// The call that a binding makes, whose values are of their types, gives the data variables of the called relation's roots values of theirs.
pub fn calls_give_values_of_types()
    ensures whens { (metas : List MetaDesc) (program : Program) (models : List ModelData) → IsEvaluable metas program models → (rel : Rel) (b : Values) → Contains program.rels rel → (number : ℕ) (args : List Typed) → Contains rel.whens (conjuncts.Call number args)
        → ((e : Typed) → Contains args e → AreValued metas (setting program models) rel e b)
        → (called : Rel) → slice_get program.rels number ≡ Some called → (call : RelationCall) → call_of program models b number args ≡ Some call
        → AreRootsGiven metas (setting program models) called call.roots }
    ensures wheres { (metas : List MetaDesc) (program : Program) (models : List ModelData) → IsEvaluable metas program models → (rel : Rel) (b : Values) → Contains program.rels rel → (number : ℕ) (args : List Typed) → Contains rel.wheres (conjuncts.Call number args)
        → ((e : Typed) → Contains args e → AreValued metas (setting program models) rel e b)
        → (called : Rel) → slice_get program.rels number ≡ Some called → (call : RelationCall) → call_of program models b number args ≡ Some call
        → AreRootsGiven metas (setting program models) called call.roots }
{}

/// The value of an argument of a call, where it is neither null nor invalid and the root at its place is a data variable, is of the variable's
/// type.
pub fn arguments_are_of_their_types()
    ensures whens { (metas : List MetaDesc) (program : Program) (models : List ModelData) → IsEvaluable metas program models
        → (rel : Rel) → Contains program.rels rel → (number : ℕ) (args : List Typed) → Contains rel.whens (conjuncts.Call number args) → (called : Rel) → slice_get program.rels number ≡ Some called
        → (place : ℕ) (dom : Dom) (e : Typed) → slice_get called.domains place ≡ Some dom → slice_get args place ≡ Some e → IsDataVariable called dom.root
        → (scope : Scope) → HasValuesOfTypes metas (setting program models) e (variables_of rel) scope → (var : Var) → slice_get called.vars dom.root ≡ Some var
        → (d : Datum) → datum_of (value program models e scope) ≡ Some d → IsDatumOfTyping metas (setting program models) (typing_of var) d }
    ensures wheres { (metas : List MetaDesc) (program : Program) (models : List ModelData) → IsEvaluable metas program models
        → (rel : Rel) → Contains program.rels rel → (number : ℕ) (args : List Typed) → Contains rel.wheres (conjuncts.Call number args) → (called : Rel) → slice_get program.rels number ≡ Some called
        → (place : ℕ) (dom : Dom) (e : Typed) → slice_get called.domains place ≡ Some dom → slice_get args place ≡ Some e → IsDataVariable called dom.root
        → (scope : Scope) → HasValuesOfTypes metas (setting program models) e (variables_of rel) scope → (var : Var) → slice_get called.vars dom.root ≡ Some var
        → (d : Datum) → datum_of (value program models e scope) ≡ Some d → IsDatumOfTyping metas (setting program models) (typing_of var) d }
{}
