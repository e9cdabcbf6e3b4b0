ghost use Rattle.std.specs.Prelude.{◌≡◌, chars, codes};
ghost use Rattle.model_assembly.specs.Profile as profile;

/// The name of the document's element.
#[tactic(auto, using(crate::proofs::WritingTexts::document_characters))]
pub(super) fn document_name() -> &'static str
    ensures { chars result.now ≡ profile.xmi_document }
{
    "xmi:XMI"
}

/// The name of the attribute that has XMI's version.
#[tactic(auto, using(crate::proofs::WritingTexts::version_characters))]
pub(super) fn version_name() -> &'static str
    ensures { chars result.now ≡ codes "xmi:version" }
{
    "xmi:version"
}

/// XMI's version.
#[tactic(auto, using(crate::proofs::WritingTexts::number_characters))]
pub(super) fn version() -> &'static str
    ensures { chars result.now ≡ profile.xmi_version }
{
    "20131001"
}

/// The name of the attribute that declares XMI's prefix.
#[tactic(auto, using(crate::proofs::WritingTexts::namespace_characters))]
pub(super) fn namespace_name() -> &'static str
    ensures { chars result.now ≡ codes "xmlns:xmi" }
{
    "xmlns:xmi"
}

/// XMI's namespace.
#[tactic(auto, using(crate::proofs::WritingTexts::address_characters))]
pub(super) fn namespace() -> &'static str
    ensures { chars result.now ≡ profile.xmi_namespace }
{
    "http://www.omg.org/spec/XMI/20131001"
}

/// The name of the attribute that declares the metamodel's prefix.
#[tactic(auto, using(crate::proofs::WritingTexts::prefix_characters))]
pub(super) fn prefix_name() -> &'static str
    ensures { chars result.now ≡ codes "xmlns:m" }
{
    "xmlns:m"
}

/// The name of the attribute that has an object's identifier.
#[tactic(auto, using(crate::proofs::WritingTexts::id_characters))]
pub(super) fn id_name() -> &'static str
    ensures { chars result.now ≡ profile.xmi_id }
{
    "xmi:id"
}

/// The name of the attribute that has an object's class.
#[tactic(auto, using(crate::proofs::WritingTexts::type_characters))]
pub(super) fn type_name() -> &'static str
    ensures { chars result.now ≡ profile.xmi_type }
{
    "xmi:type"
}

/// The metamodel's prefix.
#[tactic(auto, using(crate::proofs::WritingTexts::typed_characters))]
pub(super) fn type_prefix() -> &'static str
    ensures { chars result.now ≡ codes "m:" }
{
    "m:"
}
