//! The changes of a part of the office: each changes the entry of its key and no other.
ghost use Rattle.std.specs.Prelude.{◌≡◌, OnOk, OnErr};
ghost use Rattle.std.specs.FinMap as map;
ghost use Rattle.std.specs.FinSet as set;

use crate::OfficePart;
use crate::keyed::key_of;
use deb_text::Text;
use std::alloc::AllocError;
use wb_states::{OsCpu, Record};

impl OfficePart {
    /// Gives the source package `source` on the architecture `arch` the record `current`, in the
    /// place of the one that it had, if any. All else stays. The only error is that
    /// memory ran out; all is then as it was (this project's own).
    pub fn put(&mut self, arch: Text, source: Text, current: Record) -> Result<(), AllocError>
        ensures ok { OnOk result (self.new
            ≡ record self.old { records = map.insert self.old.records (arch, source) current }) }
        ensures err { OnErr result (self.new ≡ self.old) }
    {
        self.records.insert((arch, source), current)?;
        Ok(())
    }

    /// Takes away the record of the source package on the architecture, if it has one. All else
    /// stays. The only error is that memory ran out for the key by which it is sought; all is then
    /// as it was (this project's own).
    pub fn forget(&mut self, arch: &Text, source: &Text) -> Result<(), AllocError>
        ensures ok { OnOk result (self.new
            ≡ record self.old { records = map.remove self.old.records (arch.now, source.now) }) }
        ensures err { OnErr result (self.new ≡ self.old) }
    {
        let key = key_of(arch, source)?;
        self.records.remove(&key);
        Ok(())
    }

    /// Adds the architecture `name` with its words, or gives these words to one that is there. All
    /// else stays. The only error is that memory ran out; all is then as it was (this project's
    /// own).
    pub fn add_arch(&mut self, name: Text, words: OsCpu) -> Result<(), AllocError>
        ensures ok { OnOk result (self.new
            ≡ record self.old { archs = map.insert self.old.archs name words }) }
        ensures err { OnErr result (self.new ≡ self.old) }
    {
        self.archs.insert(name, words)?;
        Ok(())
    }

    /// Adds that the builder builds for the architecture `arch`. All else stays. The only error is
    /// that memory ran out; all is then as it was (this project's own).
    pub fn add_builder(&mut self, builder: Text, arch: Text) -> Result<(), AllocError>
        ensures ok { OnOk result (self.new
            ≡ record self.old { builders = set.insert self.old.builders (builder, arch) }) }
        ensures err { OnErr result (self.new ≡ self.old) }
    {
        self.builders.insert((builder, arch))?;
        Ok(())
    }

    /// Lets the builder build no more for the architecture `arch`. All else stays. The only error
    /// is that memory ran out for the pair by which it is sought; all is then as it was (this
    /// project's own).
    pub fn remove_builder(&mut self, builder: &Text, arch: &Text) -> Result<(), AllocError>
        ensures ok { OnOk result (self.new
            ≡ record self.old { builders = set.remove self.old.builders (builder.now, arch.now) }) }
        ensures err { OnErr result (self.new ≡ self.old) }
    {
        let pair = key_of(builder, arch)?;
        self.builders.remove(&pair);
        Ok(())
    }
}
