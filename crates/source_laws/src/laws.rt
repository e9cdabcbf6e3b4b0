ghost use Rattle.std.specs.Prelude.{◌≡◌, ◌↔◌, ℕ, List, Some, true, length, slice_get, Contains};
ghost use Rattle.std.specs.List.{list_all};
ghost use Rattle.mof_metamodel.specs.declared.desc.MetaDesc.{MetaDesc};
ghost use Rattle.object_tables.specs.Models.{ModelData};
ghost use Rattle.qv_syntax.specs.declared.program.Program.{Program};
ghost use Rattle.qv_syntax.specs.declared.program.Rel.{Rel};
ghost use Rattle.qv_syntax.specs.declared.program.Conj.{Conj};
ghost use Rattle.qv_syntax.specs.declared.program.Conj.TheVariants.{Equation};
ghost use Rattle.qv_syntax.specs.declared.typed.Typed.{Typed};
ghost use Rattle.qv_syntax.specs.Parts.{Names};
ghost use Rattle.qv_syntax.specs.Directions.{AreMeant};
ghost use Rattle.qv_syntax.specs.WellFormed.{IsWellFormed};
ghost use Rattle.qvtr_semantics.specs.declared.datum.Datum.{Datum};
ghost use Rattle.qvtr_semantics.specs.Outs.{datum_of};
ghost use Rattle.qvtr_semantics.specs.Bindings.{conjunct_holds};
ghost use Rattle.qvtr_semantics.specs.Expressions.{Scope, variable, value, value_for};
ghost use Rattle.qvtr_semantics.specs.Templates.{Values, value_at};
ghost use Rattle.qvtr_semantics.specs.SmallModels.{program, class_to_table, both, one_only};
ghost use Rattle.qvtr_semantics.specs.Calls.{RelationCall, calls_of};
ghost use Rattle.template_match.specs.Sources.{is_target_variable, meets_without_target, NamesNoTarget, SourceWithoutTarget};
ghost use Rattle.source_laws.specs.Agreement.{AgreeBut};
ghost use Rattle.source_laws.specs.SourceValues.{IsOfSources, HasNoTarget};
ghost use Rattle.source_laws.specs.SourceExpressions.{AsksNoTargetExtent, AsksNoTargetClass, SpeaksOfSources};
ghost use Rattle.source_laws.specs.SourceRelations.{NamesSources, KeepsToSources, AgreeOnSources, AreSourceBindings, HavePlainArguments, IsApart};
ghost use Rattle.source_laws.specs.CallsAlike.{DifferInTargets, AllMadeAlike};
ghost use Rattle.source_laws.specs.TargetRule.{HasConjunct, IsExpressionOf, HandsTargetOn};

/// An expression that speaks of sources has one value over models that agree but for the target, in scopes that agree on the variables that it
/// names, and no object of the target in it, where these variables have none (QVT 1.3, section 7.10.2).
pub fn values_are_of_sources()
    ensures scopes { (program : Program) (ms ns : List ModelData) (e : Typed) (x y : Scope) → AgreeBut program.target ms ns → SpeaksOfSources program e
        → length x ≡ length y → ((v : ℕ) → Names e v → (variable x v ≡ variable y v) × HasNoTarget program.target (variable x v))
        → (value program ms e x ≡ value program ns e y) × HasNoTarget program.target (value program ms e x) }
    ensures same { (program : Program) (ms ns : List ModelData) (e : Typed) (b : Values) → AgreeBut program.target ms ns → SpeaksOfSources program e
        → ((v : ℕ) (d : Datum) → Names e v → value_at b v ≡ Some d → IsOfSources program.target d)
        → value_for program ms e b ≡ value_for program ns e b }
    ensures apart { (program : Program) (ms ns : List ModelData) (e : Typed) (b : Values) → AgreeBut program.target ms ns → SpeaksOfSources program e
        → ((v : ℕ) (d : Datum) → Names e v → value_at b v ≡ Some d → IsOfSources program.target d)
        → HasNoTarget program.target (value_for program ms e b) }
{}

/// Where the source of a relation speaks of no object of the target, the same bindings meet it over models that agree but for the target
/// (QVT 1.3, sections 7.10.1 and 7.10.2). So what `source_bindings` gives is one list for all target models. With other objects of the target
/// among the roots the bindings are the same but for these. In a binding only the variables for objects of the target have such objects,
/// where this holds of the roots.
pub fn bindings_are_of_sources()
    ensures meets { (program : Program) (ms ns : List ModelData) (number : ℕ) (rel : Rel) (b c : Values) → AreMeant program → slice_get program.rels number ≡ Some rel
        → KeepsToSources program rel → AgreeBut program.target ms ns → AgreeOnSources program rel b c → length b ≡ length rel.vars
        → meets_without_target program ms rel b ≡ meets_without_target program ns rel c }
    ensures same { (program : Program) (ms ns : List ModelData) (number : ℕ) (rel : Rel) (roots b : Values) → AreMeant program → slice_get program.rels number ≡ Some rel
        → KeepsToSources program rel → AgreeBut program.target ms ns
        → SourceWithoutTarget program ms rel roots b ↔ SourceWithoutTarget program ns rel roots b }
    ensures moved { (program : Program) (ms ns : List ModelData) (number : ℕ) (rel : Rel) (roots others b c : Values) → AreMeant program → slice_get program.rels number ≡ Some rel
        → KeepsToSources program rel → AgreeBut program.target ms ns → AgreeOnSources program rel roots others → AgreeOnSources program rel b c
        → ((v : ℕ) → is_target_variable program rel v ≡ true → value_at c v ≡ value_at others v)
        → SourceWithoutTarget program ms rel roots b → SourceWithoutTarget program ns rel others c }
    ensures answers { (program : Program) (ms ns : List ModelData) (number : ℕ) (rel : Rel) (roots : Values) (xs ys : List Values) → AreMeant program → slice_get program.rels number ≡ Some rel
        → KeepsToSources program rel → AgreeBut program.target ms ns
        → AreSourceBindings program ms rel roots xs → AreSourceBindings program ns rel roots ys → xs ≡ ys }
    ensures apart { (program : Program) (models : List ModelData) (rel : Rel) (roots b : Values) → IsApart program rel roots → SourceWithoutTarget program models rel roots b
        → IsApart program rel b }
{}

/// The calls of a clause are the same over models that agree but for the target, where each argument is a variable alone or speaks of sources,
/// and only the variables for objects of the target have such objects; where the relation hands these only on, this holds of the roots of the
/// called relation too. From two bindings that differ in objects of the target alone, calls are made that differ in these alone (QVT 1.3,
/// sections 7.3 and 7.10.2).
pub fn calls_are_of_sources()
    ensures same { (program : Program) (ms ns : List ModelData) (rel : Rel) (clause : List Conj) (b : Values) → AgreeBut program.target ms ns → HavePlainArguments program rel clause
        → IsApart program rel b → calls_of program ms b clause ≡ calls_of program ns b clause }
    ensures roots { (metas : List MetaDesc) (program : Program) (models : List ModelData) (number : ℕ) (rel : Rel) (clause : List Conj) (b : Values) (call : RelationCall) (called : Rel)
        → IsWellFormed metas program → slice_get program.rels number ≡ Some rel → ((c : Conj) → Contains clause c → HasConjunct rel c) → HandsTargetOn program rel
        → IsApart program rel b → Contains (calls_of program models b clause) (Some call) → slice_get program.rels call.rel ≡ Some called → IsApart program called call.roots }
    ensures alike { (metas : List MetaDesc) (program : Program) (ms ns : List ModelData) (number : ℕ) (rel : Rel) (clause : List Conj) (b c : Values)
        → IsWellFormed metas program → slice_get program.rels number ≡ Some rel → ((x : Conj) → Contains clause x → HasConjunct rel x) → HandsTargetOn program rel
        → AgreeBut program.target ms ns → IsApart program rel b → DifferInTargets program rel b c
        → AllMadeAlike program (calls_of program ms b clause) (calls_of program ns c clause) }
{}

/// In a well-formed program a relation that hands objects of the target only on keeps to the sources, no condition and no equation of its when
/// clause names a variable for such objects, and each argument of its calls is a variable alone or speaks of sources. An expression that has
/// no `allInstances` of a class of the target's metamodel has none of the target model (QVT 1.3, section 7.10.2).
pub fn rule_keeps_to_sources()
    ensures keeps { (metas : List MetaDesc) (program : Program) (number : ℕ) (rel : Rel) → IsWellFormed metas program → slice_get program.rels number ≡ Some rel
        → HandsTargetOn program rel → KeepsToSources program rel }
    ensures extents { (metas : List MetaDesc) (program : Program) (e : Typed) → IsWellFormed metas program → AsksNoTargetClass program e → AsksNoTargetExtent program.target e }
    ensures names { (program : Program) (rel : Rel) → KeepsToSources program rel → NamesNoTarget program rel }
    ensures whens { (metas : List MetaDesc) (program : Program) (number : ℕ) (rel : Rel) → IsWellFormed metas program → slice_get program.rels number ≡ Some rel
        → HandsTargetOn program rel → HavePlainArguments program rel rel.whens }
    ensures wheres { (metas : List MetaDesc) (program : Program) (number : ℕ) (rel : Rel) → IsWellFormed metas program → slice_get program.rels number ≡ Some rel
        → HandsTargetOn program rel → HavePlainArguments program rel rel.wheres }
{}

/// Where a relation hands objects of the target only on, each of its expressions has one value over models that agree but for the target, for
/// a binding in which only the variables for objects of the target have such objects. In two bindings that differ in these alone an expression
/// that names no such variable has one value, and the conditions and equations of the where clause hold alike. What an equation gives its
/// variable is no object of the target (QVT 1.3, section 7.10.2).
pub fn expressions_are_of_sources()
    ensures same { (program : Program) (ms ns : List ModelData) (rel : Rel) (e : Typed) (b : Values) → AgreeBut program.target ms ns → HandsTargetOn program rel
        → IsApart program rel b → IsExpressionOf rel e → value_for program ms e b ≡ value_for program ns e b }
    ensures alike { (program : Program) (ms ns : List ModelData) (rel : Rel) (e : Typed) (b c : Values) → AgreeBut program.target ms ns → HandsTargetOn program rel
        → IsApart program rel b → AgreeOnSources program rel b c → IsExpressionOf rel e → NamesSources program rel e
        → value_for program ms e b ≡ value_for program ns e c }
    ensures wheres { (program : Program) (ms ns : List ModelData) (number : ℕ) (rel : Rel) (b c : Values) → AreMeant program → slice_get program.rels number ≡ Some rel
        → AgreeBut program.target ms ns → HandsTargetOn program rel → IsApart program rel b → AgreeOnSources program rel b c
        → list_all (conjunct_holds program ms b) rel.wheres ≡ list_all (conjunct_holds program ns c) rel.wheres }
    ensures equations { (program : Program) (models : List ModelData) (rel : Rel) (v : ℕ) (e : Typed) (d : Datum) (b : Values) → HandsTargetOn program rel
        → IsApart program rel b → HasConjunct rel (Equation v e) → datum_of (value_for program models e b) ≡ Some d → IsOfSources program.target d }
{}

/// ClassToTable of the standard, which calls PackageToSchema in its when clause, hands objects of the target only on; and two lists of models,
/// with two schemas in the target and with one, agree but for it.
pub fn small_relation_hands_target_on()
    ensures rule { HandsTargetOn program class_to_table }
    ensures agree { AgreeBut program.target both one_only }
{}
