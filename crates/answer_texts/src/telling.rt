//! What is printed of values, of a binding that fails, and of a chain of calls that is refused.
ghost use Rattle.std.specs.Prelude.{◌≡◌, ◌<◌, [], ◌++◌, map, codes, slice_get, IfOk, OnOk};
ghost use Rattle.std.specs.List.{concat, flat_map};
ghost use Rattle.std.specs.Option.{unwrap_or};
ghost use Rattle.std.specs.Fmt.{signed_decimal};
ghost use Rattle.fault_lines.specs.Lines.{shown};
ghost use Rattle.mof_metamodel.specs.Metamodels.{enum_at, enum_count, literal_at};
ghost use Rattle.object_tables.specs.Models.{id_at};
ghost use Rattle.xmi_profile.specs.Canon.{boolean_text};
ghost use Rattle.ocl_environments.specs.Environments.{meta_at};
ghost use Rattle.relation_calls.specs.Names.{call_named, chain_named};
ghost use Rattle.answer_texts.specs.AskedView.{asked_view};
ghost use Rattle.answer_texts.specs.AnswerTexts as spec;

use crate::asked::Asked;
use crate::joining::{add_all, concatenate};
use crate::quoting::quoted;
use mof_metamodel::{EnumId, MetaModel, NoMemory, Seq};
use object_tables::{Model, ObjId, Value};
use qv_syntax::{Dom, Rel};
use qvtr_semantics::Datum;
use relation_calls::CallName;
use std::alloc::Global;

// ---- values of data types

/// The digits of a number.
fn integer_text(alloc: Global, number: i64) -> Result<Seq<u8>, NoMemory>
    ensures { IfOk result (λ text. text ≡ signed_decimal number) }
{
    let text = format!(in alloc; "{number}")?;
    Seq::from_slice(alloc, text.as_bytes())
}

/// `true` or `false`.
fn boolean_text(alloc: Global, value: bool) -> Result<Seq<u8>, NoMemory>
    ensures { IfOk result (λ text. text ≡ boolean_text value) }
{
    if value {
        Seq::from_slice(alloc, b"true")
    } else {
        Seq::from_slice(alloc, b"false")
    }
}

/// The name of an enumeration.
fn enum_name(meta: &MetaModel, of: EnumId) -> &str
    requires { of.0 < enum_count meta.now }
    ensures { result.now ≡ shown (enum_at meta.now of.0).name }
{
    meta.enum_name(of)
}

/// The name of a literal, nothing where there is none of this place.
fn literal_name(meta: &MetaModel, of: EnumId, place: u32) -> &str
    requires { of.0 < enum_count meta.now }
    ensures { result.now ≡ shown (literal_at meta.now of.0 place) }
{
    match meta.literals(of).get(place as usize) {
        Some(literal) => literal.as_str(),
        None => "",
    }
}

/// `Enum::lit`, of a literal of the metamodel.
#[tactic(auto, using(crate::proofs::TellingLaws::no_literal))]
fn literal_in(alloc: Global, meta: &MetaModel, of: EnumId, place: u32) -> Result<Seq<u8>, NoMemory>
    ensures { IfOk result (λ text. text ≡ spec.literal_text meta.now of.0 place) }
{
    if of.0 >= meta.enum_count() {
        return Seq::from_slice(alloc, b"::");
    }
    let name = enum_name(meta, of).as_bytes();
    let literal = literal_name(meta, of, place).as_bytes();
    concatenate(alloc, &[name, b"::", literal])
}

/// The identifier of an object, nothing where it isn't live.
fn identifier<'a>(model: &'a Model<'_>, object: ObjId) -> &'a str
    ensures { result.now ≡ shown (unwrap_or (id_at model.now object.0) []) }
{
    if model.is_live(object) {
        model.id_of(object)
    } else {
        ""
    }
}

/// The name of a variable of a relation.
fn variable_name(rel: &Rel, variable: u32) -> &str
    ensures { result.now ≡ shown (spec.variable_name rel.now variable) }
{
    match rel.vars.as_slice().get(variable as usize) {
        Some(var) => var.name.as_str(),
        None => "",
    }
}

impl<'a> Asked<'a, '_> {
    // ---- data

    /// `Enum::lit`, of a literal of the metamodel of this number.
    #[tactic(auto, using(crate::proofs::TellingLaws::no_metamodel))]
    fn literal_text(
        &self,
        alloc: Global,
        meta: u32,
        of: EnumId,
        place: u32,
    ) -> Result<Seq<u8>, NoMemory>
        ensures { IfOk result (λ text. text ≡ spec.literal_text (meta_at (asked_view self.now).metas meta) of.0 place) }
    {
        if meta < self.metas.len() {
            literal_in(alloc, self.metas.get(meta), of, place)
        } else {
            Seq::from_slice(alloc, b"::")
        }
    }

    /// A value of a data type; a literal is one of the metamodel of this number.
    fn value_text(&self, alloc: Global, meta: u32, value: &Value) -> Result<Seq<u8>, NoMemory>
        ensures { IfOk result (λ text. text ≡ spec.value_text (meta_at (asked_view self.now).metas meta) value.now) }
    {
        match value {
            Value::Str(text) => {
                let written = quoted(alloc, text)?;
                Seq::from_slice(alloc, written.as_str().as_bytes())
            }
            Value::Int(number) => integer_text(alloc, *number),
            Value::Bool(value) => boolean_text(alloc, *value),
            Value::Lit(of, place) => self.literal_text(alloc, meta, *of, *place),
        }
    }

    fn model_name(&self, model: u32) -> &'a str
        ensures { result.now ≡ shown (spec.model_name (asked_view self.now) model) }
    {
        match self.program.models.as_slice().get(model as usize) {
            Some(slot) => slot.name.as_str(),
            None => "",
        }
    }

    fn identifier_in(&self, model: u32, object: ObjId) -> &'a str
        ensures { result.now ≡ shown (spec.identifier_in (slice_get (asked_view self.now).models model) object.0) }
    {
        match self.models.get(model as usize) {
            Some(model) => identifier(model, object),
            None => "",
        }
    }

    /// `model:identifier`.
    fn object_text(&self, alloc: Global, model: u32, object: ObjId) -> Result<Seq<u8>, NoMemory>
        ensures { IfOk result (λ text. text ≡ spec.object_text (asked_view self.now) model object.0) }
    {
        let name = self.model_name(model).as_bytes();
        let identifier = self.identifier_in(model, object).as_bytes();
        concatenate(alloc, &[name, b":", identifier])
    }

    /// What is printed of a datum: an object by the name of its model and its identifier, a string between quotes, a number, a Boolean, or
    /// a literal by the name of its enumeration and its own.
    pub fn datum_text(&self, alloc: Global, datum: &Datum) -> Result<Seq<u8>, NoMemory>
        ensures { IfOk result (λ text. text ≡ spec.datum_text (asked_view self.now) datum.now) }
    {
        match datum {
            Datum::Obj(model, object) => self.object_text(alloc, *model, *object),
            Datum::Val(meta, value) => self.value_text(alloc, *meta, value),
        }
    }

    /// The value of a variable, nothing where it has none.
    fn text_at(
        &self,
        alloc: Global,
        values: &[Option<Datum>],
        variable: u32,
    ) -> Result<Seq<u8>, NoMemory>
        ensures { IfOk result (λ text. text ≡ spec.text_at (asked_view self.now) values.now variable) }
    {
        match values.get(variable as usize) {
            Some(value) => match value {
                Some(datum) => self.datum_text(alloc, datum),
                None => Ok(Seq::new(alloc)),
            },
            None => Ok(Seq::new(alloc)),
        }
    }

    // ---- a binding that fails

    /// The line of a variable with its value.
    fn variable_line(
        &self,
        alloc: Global,
        rel: &Rel,
        values: &[Option<Datum>],
        variable: u32,
    ) -> Result<Seq<u8>, NoMemory>
        ensures { IfOk result (λ text. text ≡ spec.variable_line (asked_view self.now) rel.now values.now variable) }
    {
        let name = variable_name(rel, variable).as_bytes();
        let value = self.text_at(alloc, values, variable)?;
        concatenate(alloc, &[b"  ", name, b" = ", value.as_slice(), b"\n"])
    }

    /// Puts the lines of the universal variables behind a text.
    fn add_variables(
        &self,
        alloc: Global,
        rel: &Rel,
        values: &[Option<Datum>],
        out: &mut Vec<u8>,
    ) -> Result<(), NoMemory>
        ensures { OnOk result (out.new.items ≡ out.old.items ++ concat (map (spec.variable_line (asked_view self.now) rel.now values.now) rel.now.universal)) }
    {
        for variable in rel.universal.as_slice() {
            let line = self.variable_line(alloc, rel, values, *variable)?;
            out.extend_from_slice(line.as_slice())?;
        }
        Ok(())
    }

    /// What is printed of a failing binding of a relation.
    pub fn failing_text(
        &self,
        alloc: Global,
        rel: &Rel,
        values: &[Option<Datum>],
    ) -> Result<Seq<u8>, NoMemory>
        ensures { IfOk result (λ text. text ≡ spec.failing_text (asked_view self.now) rel.now values.now) }
    {
        let mut out = Vec::new(alloc);
        add_all(
            &mut out,
            &[b"no\n", b"relation ", rel.name.as_str().as_bytes(), b"\n"],
        )?;
        self.add_variables(alloc, rel, values, &mut out)?;
        Ok(Seq::from_vec(out))
    }

    // ---- a chain of calls

    /// Puts the values of the roots of domains behind a text, each behind a comma.
    fn add_roots(
        &self,
        alloc: Global,
        values: &[Option<Datum>],
        domains: &[Dom],
        out: &mut Vec<u8>,
    ) -> Result<(), NoMemory>
        ensures { OnOk result (out.new.items ≡ out.old.items ++ flat_map (λ domain. codes ", " ++ spec.root_text (asked_view self.now) values.now domain) domains.now) }
    {
        for domain in domains {
            let value = self.text_at(alloc, values, domain.root)?;
            add_all(out, &[b", ", value.as_slice()])?;
        }
        Ok(())
    }

    /// The values of the roots of domains.
    fn root_texts(
        &self,
        alloc: Global,
        values: &[Option<Datum>],
        domains: &[Dom],
    ) -> Result<Seq<u8>, NoMemory>
        ensures { IfOk result (λ text. text ≡ spec.root_texts (asked_view self.now) values.now domains.now) }
    {
        match domains.split_first() {
            None => Ok(Seq::new(alloc)),
            Some((first, others)) => {
                let mut out = self.text_at(alloc, values, first.root)?.into_vec();
                self.add_roots(alloc, values, others, &mut out)?;
                Ok(Seq::from_vec(out))
            }
        }
    }

    /// The line of a call of a relation.
    fn call_of(
        &self,
        alloc: Global,
        rel: &Rel,
        values: &[Option<Datum>],
    ) -> Result<Seq<u8>, NoMemory>
        ensures { IfOk result (λ text. text ≡ spec.call_of (asked_view self.now) values.now rel.now) }
    {
        let roots = self.root_texts(alloc, values, rel.domains.as_slice())?;
        let name = rel.name.as_str().as_bytes();
        concatenate(alloc, &[name, b"(", roots.as_slice(), b")\n"])
    }

    /// The line of a call, nothing where there is no relation of its number.
    fn call_line(&self, alloc: Global, call: &CallName) -> Result<Seq<u8>, NoMemory>
        ensures { IfOk result (λ text. text ≡ spec.call_line (asked_view self.now) (call_named call.now)) }
    {
        match self.program.rels.as_slice().get(call.rel as usize) {
            Some(rel) => self.call_of(alloc, rel, call.roots.values.as_slice()),
            None => Ok(Seq::new(alloc)),
        }
    }

    /// A word, and the lines of the calls of a chain.
    fn chain_text(
        &self,
        alloc: Global,
        word: &[u8],
        chain: &[CallName],
    ) -> Result<Seq<u8>, NoMemory>
        ensures { IfOk result (λ text. text ≡ spec.chain_text (asked_view self.now) word.now (chain_named chain.now)) }
    {
        let mut out = Vec::from_slice(alloc, word)?;
        for call in chain {
            let line = self.call_line(alloc, call)?;
            out.extend_from_slice(line.as_slice())?;
        }
        Ok(Seq::from_vec(out))
    }

    /// What is printed of a chain that comes back to one of its calls.
    pub fn cycle_text(&self, alloc: Global, chain: &[CallName]) -> Result<Seq<u8>, NoMemory>
        ensures { IfOk result (λ text. text ≡ spec.cycle_text (asked_view self.now) (chain_named chain.now)) }
    {
        self.chain_text(alloc, b"cycle\n", chain)
    }

    /// What is printed of a chain that has too many calls.
    pub fn deep_text(&self, alloc: Global, chain: &[CallName]) -> Result<Seq<u8>, NoMemory>
        ensures { IfOk result (λ text. text ≡ spec.deep_text (asked_view self.now) (chain_named chain.now)) }
    {
        self.chain_text(alloc, b"deep\n", chain)
    }
}
