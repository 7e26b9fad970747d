//! What has fields: a paragraph, whoever holds its text.
ghost use Rattle.std.specs.Prelude.{◌≡◌, List};
ghost use Rattle.deb_control.specs.Fields.{FieldText, field_named};

use crate::{Field, Paragraph};

/// A paragraph whose fields are found by their names (Debian Policy 5.1).
pub trait Fields {
    // the fields in the order in which they stand
    ghost fields: { Self → List FieldText };

    /// The field of this name, without regard to case, if the paragraph has it (Debian Policy 5.1). Takes no
    /// memory.
    fn get(&self, name: &str) -> Option<Field<'_>>
        ensures value { result ≡ field_named name.now (fields self.now) };
}

impl<'a> Fields for Paragraph<'a> {
    ghost fields = { λ paragraph. paragraph };

    fn get(&self, name: &str) -> Option<Field<'_>> {
        Paragraph::get(self, name)
    }
}
