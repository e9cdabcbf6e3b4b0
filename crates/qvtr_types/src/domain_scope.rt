ghost use Rattle.std.specs.Prelude.{◌≡◌, map, Some, IfOk, IfSome};
ghost use Rattle.std.specs.Option.{option_map};
ghost use Rattle.mof_metamodel.specs.Metamodels.{prop_number, type_of};
ghost use Rattle.ocl_environments.specs.Environments.{meta_at};
ghost use Rattle.ocl_environments.specs.Navigation.{value_type};
ghost use Rattle.qvtr_types.specs.ClassPlaces.{IsClassAt};
ghost use Rattle.script_scopes.specs.Environments.{place_of as place};
ghost use Rattle.script_scopes.specs.Occurrences.{variable_text as text_of_variable};
ghost use Rattle.script_scopes.specs.ResolvedTemplates.{class_named as class_of_path};

use crate::properties::typed_prop;
use mof_metamodel::{ClassId, NameTable, NoMemory, PropId, Text};
use ocl_environments::Env;
use qv_syntax::{Name, Path, Ty};
use script_scopes::{place_of, template_class, variable_of, variable_text};
use std::alloc::Global;
use std::marker::Model;

/// What is in reach in the templates of a domain (QVT 1.3, section 7.11.2): what their expressions may name, the names of the
/// metamodels, the variables of the relation by their numbers, and the numbers of the domain's model and of its metamodel.
#[derive(Drop)]
pub(crate) struct DomainScope<'a> {
    env: &'a Env<'a>,
    metas: &'a [Text],
    variables: &'a NameTable<u32>,
    model: u32,
    meta: u32,
}

impl<'a> Model for DomainScope<'a> {
    ghost use Rattle.std.specs.Prelude.{◌≡◌, map};
    ghost use Rattle.std.specs.Coded.{codes};
    ghost use Rattle.qv_syntax.specs.contracts.ty.Ty as ty;
    ghost use Rattle.script_scopes.specs.ResolvedTemplates.{DomainReach};

    ghost Value = { DomainReach };

    ghost coded = { Prim.hlevel (codes, ty.the_row.coded) };

    ghost view = { λ d. record { env = d.env.now; variables = map (λ e. e.0) d.variables.now; model = d.model; meta = d.meta } };

    ghost invariant = { λ d. d.metas.now ≡ d.env.now.names };
}

impl<'a> DomainScope<'a> {
    /// A domain of the model of this number. `metas` are the names of the metamodels.
    pub(crate) fn new(
        env: &'a Env<'a>,
        metas: &'a [Text],
        variables: &'a NameTable<u32>,
        model: u32,
        meta: u32,
    ) -> DomainScope<'a>
        requires { metas.now ≡ env.now.names }
        ensures { result ≡ record { env = env.now; variables = map (λ e. e.0) variables.now; model = model; meta = meta } }
    {
        DomainScope {
            env,
            metas,
            variables,
            model,
            meta,
        }
    }

    /// What expressions may name.
    pub(crate) fn env(&self) -> &Env<'a>
        ensures { result.now ≡ self.now.env }
    {
        self.env
    }

    /// The number of the domain's model.
    pub(crate) fn model(&self) -> u32
        ensures { result ≡ self.now.model }
    {
        self.model
    }

    /// The number of its metamodel.
    pub(crate) fn meta(&self) -> u32
        ensures { result ≡ self.now.meta }
    {
        self.meta
    }

    /// The class that a template's path names.
    pub(crate) fn class_named(&self, path: &Path) -> Option<ClassId>
        ensures { result ≡ class_of_path self.now path.now }
    {
        template_class(
            self.env.metas(),
            self.metas,
            self.meta,
            path.names.as_slice(),
        )
    }

    /// The property of this name of a class, with the type of its values.
    pub(crate) fn property(&self, class: ClassId, name: &Text) -> Option<(PropId, Ty)>
        requires { IsClassAt self.now.env.metas (self.now.meta, class) }
        ensures number { option_map (λ p. p.0.0) result ≡ prop_number (meta_at self.now.env.metas self.now.meta) class.0 name.now }
        ensures typed { IfSome result (λ p. option_map (value_type self.now.meta) (type_of (meta_at self.now.env.metas self.now.meta) p.0.0) ≡ Some p.1) }
    {
        typed_prop(self.env.metas(), (self.meta, class), name)
    }

    /// The number of the variable of a template, which has this number.
    pub(crate) fn variable(
        &self,
        alloc: Global,
        k: u32,
        variable: &Option<Name>,
    ) -> Result<u32, NoMemory>
        ensures { IfOk result (λ number. number ≡ place (text_of_variable k variable.now) self.now.variables) }
    {
        let text = variable_text(alloc, &variable_of(variable, k))?;
        place_of(self.variables, &text)
    }
}
