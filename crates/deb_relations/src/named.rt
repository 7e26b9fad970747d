//! The package names of relations, on which alone it depends whether they are satisfied.

ghost use Rattle.std.specs.Prelude.{◌≡◌, ◌≢◌, [], map, IfOk, OnOk, OnErr};
ghost use Rattle.std.specs.BTreeSet.{contains};
ghost use Rattle.std.specs.List.{fold};
ghost use Rattle.deb_text.specs.Text.{text_cmp};
ghost use Rattle.deb_relations.specs.Satisfaction.{names_of, with_name, IsNameTest};

use crate::relations::{Alternative, Relations};
use deb_text::Text;
use std::alloc::{AllocError, Global};
use std::collections::BTreeSet;

/// Adds a name to those found, unless it is among them. The set has the names found, too.
fn add_name(
    known: &mut BTreeSet<Text>,
    found: &mut Vec<Text>,
    name: &Text,
) -> Result<(), AllocError>
    requires { IsNameTest (contains text_cmp known.old) found.old.items }
    ensures value { OnOk result (found.new.items ≡ with_name found.old.items name.now) }
    ensures known { OnOk result (IsNameTest (contains text_cmp known.new) found.new.items) }
{
    if known.contains(name) {
        return Ok(());
    }
    known.insert(name.clone()?)?;
    found.push(name.clone()?)?;
    Ok(())
}

/// Adds the names of the alternatives of a group to those found.
fn add_names(
    known: &mut BTreeSet<Text>,
    found: &mut Vec<Text>,
    group: &[Alternative],
) -> Result<(), AllocError>
    requires { IsNameTest (contains text_cmp known.old) found.old.items }
    ensures value { OnOk result (found.new.items
        ≡ fold with_name found.old.items (map (λ a. a.name) group.now)) }
    ensures known { OnOk result (IsNameTest (contains text_cmp known.new) found.new.items) }
{
    for a in group {
        add_name(known, found, &a.name)?;
    }
    Ok(())
}

impl Relations {
    /// The package names in the order in which they first stand, each once. The only error is that memory ran out,
    /// which does not come if there is no group.
    /// Source: this project's own.
    pub fn names(&self, alloc: Global) -> Result<Vec<Text>, AllocError>
        ensures value { IfOk result (λ names. names.items ≡ names_of self.now) }
        ensures memory { OnErr result (self.now ≢ []) }
    {
        let mut known = BTreeSet::new(alloc);
        let mut found = Vec::new(alloc);
        for group in self.groups.as_slice() {
            add_names(&mut known, &mut found, group.as_slice())?;
        }
        Ok(found)
    }
}
