//! What is looked up in a part of the office.
ghost use Rattle.std.specs.Prelude.{◌≡◌, IfOk};
ghost use Rattle.std.specs.Option.{option_copied};
ghost use Rattle.std.specs.FinMap as map;
ghost use Rattle.std.specs.FinSet as set;
ghost use Rattle.deb_text.specs.Lists.{is_nonempty};
ghost use Rattle.wb_states.specs.Machine.{archs_of};

use crate::OfficePart;
use crate::keyed::key_of;
use deb_text::Text;
use std::alloc::AllocError;
use wb_states::{OsCpu, Record};

impl OfficePart {
    /// The words of the architecture, or none if it was never added. Takes no memory (this
    /// project's own).
    pub fn arch(&self, name: &Text) -> Option<&OsCpu>
        ensures value { option_copied result ≡ map.get self.now.archs name.now }
    {
        self.archs.get(name)
    }

    /// Whether the architecture was added. Takes no memory (this project's own).
    pub fn has_arch(&self, name: &Text) -> bool
        ensures value { result ≡ map.contains_key self.now.archs name.now }
    {
        self.arch(name).is_some()
    }

    /// Whether a builder of this name was added, for any architecture. Makes no list. The only
    /// error is that memory ran out (this project's own).
    pub fn is_builder(&self, name: &Text) -> Result<bool, AllocError>
        ensures value { IfOk result (λ is_there. is_there ≡ is_nonempty (archs_of self.now name.now)) }
    {
        for (arch, _) in self.archs.iter() {
            if self.has_builder(name, arch)? {
                return Ok(true);
            }
        }
        Ok(false)
    }

    // A command about one architecture asks for this pair, and needs no list of architectures.
    /// Whether the builder was added for the architecture. The only error is that memory ran out
    /// for the pair by which it is sought (this project's own).
    pub fn has_builder(&self, builder: &Text, arch: &Text) -> Result<bool, AllocError>
        ensures value { IfOk result (λ is_there.
            is_there ≡ set.contains self.now.builders (builder.now, arch.now)) }
    {
        let pair = key_of(builder, arch)?;
        Ok(self.builders.contains(&pair))
    }

    /// The record of the source package on the architecture, or none. The only error is that memory
    /// ran out for the key by which it is sought (this project's own).
    pub fn get(&self, arch: &Text, source: &Text) -> Result<Option<&Record>, AllocError>
        ensures value { IfOk result (λ found.
            option_copied found ≡ map.get self.now.records (arch.now, source.now)) }
    {
        let key = key_of(arch, source)?;
        Ok(self.records.get(&key))
    }

    /// Whether the source package has a record on the architecture. The only error is that memory
    /// ran out for the key by which it is sought (this project's own).
    pub fn has_record(&self, arch: &Text, source: &Text) -> Result<bool, AllocError>
        ensures value { IfOk result (λ is_there.
            is_there ≡ map.contains_key self.now.records (arch.now, source.now)) }
    {
        Ok(self.get(arch, source)?.is_some())
    }
}
