//! The fields of a paragraph of the archive's lists.
ghost use Rattle.std.specs.Prelude.{◌≡◌, ◌≢◌, Some, None, true, false, codes, IsSome, IfOk, IfErr, OnOk, OnErr, not};
ghost use Rattle.deb_control.specs.declared.fault.ControlFaultKind.TheVariants.{Memory};
ghost use Rattle.deb_version.specs.Syntax.{is_version_text};
ghost use Rattle.wb_states.specs.declared.refusal.ListingFault.TheVariants.{Control, Missing, BadValue};
ghost use Rattle.wb_states.specs.declared.refusal.ListField.TheVariants.{Package, Version as VersionField, Architecture};
ghost use Rattle.deb_relations.specs.Names.{is_package_name};
ghost use Rattle.deb_text.specs.Text.{is_empty_text};
ghost use Rattle.wb_states.specs.Refusals.{name_of_field};
ghost use Rattle.wb_merge.specs.Rows.{value_named, text_named, is_label_or_empty, required_fault, optional_fault};

use deb_control::{ControlFaultKind, Fields};
use deb_text::Text;
use deb_version::{Version, VersionFault};
use std::alloc::Global;
use wb_states::{ListField, ListingFault, is_label, is_source};

/// Out of memory, as control data reports it.
pub(crate) const MEMORY: ListingFault = ListingFault::Control {
    kind: ControlFaultKind::Memory,
};

/// The folded value of the field of this name, if the paragraph has it.
#[tactic(auto, unfolding(crate::specs::Rows::value_named))]
pub(crate) fn value<F: Fields>(
    alloc: Global,
    fields: &F,
    name: &str,
) -> Result<Option<Text>, ListingFault>
    ensures value { IfOk result (λ found. found ≡ value_named name.now (F.fields fields.now)) }
    ensures refused { IfErr result (λ fault. fault ≡ Control Memory) }
    ensures memory { IfErr result (λ fault. IsSome (value_named name.now (F.fields fields.now))) }
{
    let Some(field) = fields.get(name) else {
        return Ok(None);
    };
    match field.folded(alloc) {
        Ok(text) => Ok(Some(Text::from(text))),
        Err(_) => Err(MEMORY),
    }
}

/// The folded value of the field of this name, empty if the paragraph lacks it.
pub(crate) fn text<F: Fields>(alloc: Global, fields: &F, name: &str) -> Result<Text, ListingFault>
    ensures value { IfOk result (λ text. text ≡ text_named name.now (F.fields fields.now)) }
    ensures refused { IfErr result (λ fault. fault ≡ Control Memory) }
{
    match value(alloc, fields, name)? {
        Some(text) => Ok(text),
        None => Ok(Text::new(alloc)),
    }
}

/// The folded value of a field that has to be there.
fn wanted<F: Fields>(alloc: Global, fields: &F, field: ListField) -> Result<Text, ListingFault>
    ensures value { IfOk result (λ text.
        value_named (name_of_field field) (F.fields fields.now) ≡ Some text) }
    ensures missing { IfErr result (λ fault. fault ≢ Control Memory
        → value_named (name_of_field field) (F.fields fields.now) ≡ None) }
    ensures refused { IfErr result (λ fault. fault ≢ Control Memory → fault ≡ Missing field) }
    ensures memory { IfErr result (λ fault. fault ≡ Control Memory
        → IsSome (value_named (name_of_field field) (F.fields fields.now))) }
{
    match value(alloc, fields, field.name())? {
        Some(text) => Ok(text),
        None => Err(ListingFault::Missing { field }),
    }
}

/// The text, if it has the form of its field. Takes no memory.
fn formed(text: Text, has_form: bool, field: ListField) -> Result<Text, ListingFault>
    ensures value { IfOk result (λ same. same ≡ text) }
    ensures ok { OnOk result (has_form ≡ true) }
    ensures bad { OnErr result (has_form ≡ false) }
    ensures refused { IfErr result (λ fault. fault ≡ BadValue field) }
{
    if has_form {
        Ok(text)
    } else {
        Err(ListingFault::BadValue { field })
    }
}

/// The name of the package.
#[tactic(auto, unfolding(crate::specs::Rows::required_fault))]
pub(crate) fn package_name<F: Fields>(alloc: Global, fields: &F) -> Result<Text, ListingFault>
    ensures value { IfOk result (λ name. name ≡ text_named (codes "Package") (F.fields fields.now)) }
    ensures ok { OnOk result (required_fault Package is_package_name (F.fields fields.now) ≡ None) }
    ensures there { OnOk result (IsSome (value_named (codes "Package") (F.fields fields.now))) }
    ensures memory { IfErr result (λ fault. fault ≡ Control Memory
        → IsSome (value_named (codes "Package") (F.fields fields.now))) }
    ensures refused { IfErr result (λ fault. fault ≢ Control Memory
        → required_fault Package is_package_name (F.fields fields.now) ≡ Some fault) }
{
    let field = ListField::Package;
    let name = wanted(alloc, fields, field)?;
    let has_form = is_source(name.as_str());
    formed(name, has_form, field)
}

/// The version that a text of the field is.
#[tactic(auto, unfolding(deb_version::specs::Syntax::is_version_text, deb_version::specs::Syntax::reading_of))]
pub(crate) fn parse_version(
    alloc: Global,
    text: &str,
    field: ListField,
) -> Result<Version, ListingFault>
    ensures value { IfOk result (λ version. version ≡ text.now) }
    ensures ok { OnOk result (is_version_text text.now ≡ true) }
    ensures bad { IfErr result (λ fault. fault ≢ Control Memory
        → is_version_text text.now ≡ false) }
    ensures refused { IfErr result (λ fault. fault ≢ Control Memory → fault ≡ BadValue field) }
    ensures memory { IfErr result (λ fault. fault ≡ Control Memory
        → is_version_text text.now ≡ true) }
{
    match Version::parse(alloc, text) {
        Ok(version) => Ok(version),
        Err(VersionFault::Memory) => Err(MEMORY),
        Err(_) => Err(ListingFault::BadValue { field }),
    }
}

/// The version of the package.
#[tactic(auto, unfolding(crate::specs::Rows::required_fault))]
pub(crate) fn package_version<F: Fields>(alloc: Global, fields: &F) -> Result<Version, ListingFault>
    ensures value { IfOk result (λ version. version ≡ text_named (codes "Version") (F.fields fields.now)) }
    ensures ok { OnOk result (required_fault VersionField is_version_text (F.fields fields.now) ≡ None) }
    ensures refused { IfErr result (λ fault. fault ≢ Control Memory
        → required_fault VersionField is_version_text (F.fields fields.now) ≡ Some fault) }
{
    let field = ListField::Version;
    let text = wanted(alloc, fields, field)?;
    parse_version(alloc, text.as_str(), field)
}

/// The architectures of the package, which are not empty.
#[tactic(auto, unfolding(crate::specs::Rows::required_fault))]
pub(crate) fn architectures<F: Fields>(alloc: Global, fields: &F) -> Result<Text, ListingFault>
    ensures value { IfOk result (λ archs. archs ≡ text_named (codes "Architecture") (F.fields fields.now)) }
    ensures ok { OnOk result (
        required_fault Architecture (λ text. not (is_empty_text text)) (F.fields fields.now) ≡ None) }
    ensures refused { IfErr result (λ fault. fault ≢ Control Memory
        → required_fault Architecture (λ text. not (is_empty_text text)) (F.fields fields.now) ≡ Some fault) }
{
    let field = ListField::Architecture;
    let archs = wanted(alloc, fields, field)?;
    let has_form = !archs.as_str().is_empty();
    formed(archs, has_form, field)
}

#[tactic(auto, unfolding(crate::specs::Rows::is_label_or_empty))]
fn is_label_or_empty(text: &str) -> bool
    ensures { result ≡ is_label_or_empty text.now }
{
    text.is_empty() || is_label(text)
}

/// The priority or the section, which may be missing or empty.
#[tactic(auto, unfolding(crate::specs::Rows::optional_fault))]
pub(crate) fn label<F: Fields>(
    alloc: Global,
    fields: &F,
    field: ListField,
) -> Result<Text, ListingFault>
    ensures value { IfOk result (λ text. text ≡ text_named (name_of_field field) (F.fields fields.now)) }
    ensures ok { OnOk result (optional_fault field is_label_or_empty (F.fields fields.now) ≡ None) }
    ensures refused { IfErr result (λ fault. fault ≢ Control Memory
        → optional_fault field is_label_or_empty (F.fields fields.now) ≡ Some fault) }
{
    let Some(label) = value(alloc, fields, field.name())? else {
        return Ok(Text::new(alloc));
    };
    let has_form = is_label_or_empty(label.as_str());
    formed(label, has_form, field)
}
