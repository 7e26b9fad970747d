//! The paragraphs of a text that lies in memory.
ghost use Rattle.std.specs.Prelude.{◌≡◌, ◌≢◌, ◌+◌, None, Some, Ok, Err, IfOk, IfErr, OnErr};
ghost use Rattle.deb_control.specs.declared.fault.ControlFaultKind.TheVariants.{Memory};
ghost use Rattle.deb_control.specs.Lines.{lines_of, paragraphs_in};
ghost use Rattle.deb_control.specs.Paragraphs.{step, begun, MemoryEnds};

use crate::lines::next_paragraph;
use crate::{ControlFault, ControlFaultKind, Paragraph};
use std::alloc::Global;
use std::marker::Model;

/// A reader of the paragraphs of control data that lies in memory whole, in
/// their order (Debian Policy 5.1). It ends at the first refusal.
#[derive(Debug, Drop)]
pub struct Paragraphs<'a> {
    rest: Option<&'a [u8]>,
    passed: u64,
}

impl<'a> Model for Paragraphs<'a> {
    ghost use Rattle.std.specs.Prelude.{◌+◌, ◌<◌, ◌^◌, length, option_map, IfSome};
    ghost use Rattle.deb_control.specs.Lines.{lines_of, paragraphs_in};
    ghost use Rattle.deb_control.specs.Paragraphs.{ReaderState};

    ghost Value = { ReaderState };

    ghost view = { λ p. record {
      passed = p.passed;
      ahead = option_map (λ rest. paragraphs_in (lines_of rest.now)) p.rest;
    } };

    ghost invariant = { λ p. IfSome p.rest (λ rest. p.passed + length rest.now < 2 ^ 64) };
}

impl<'a> Paragraphs<'a> {
    /// Stands before the first paragraph of these bytes, which may be empty.
    /// Takes no memory.
    pub fn of(bytes: &'a [u8]) -> Self
        ensures { result ≡ begun (paragraphs_in (lines_of bytes.now)) }
    {
        Paragraphs {
            rest: Some(bytes),
            passed: 0,
        }
    }

    /// The next paragraph, or none at the end, and again none after it.
    /// Refuses a paragraph that is not one of Debian Policy 5.1, as
    /// `ControlFaultKind` says, or one for which memory runs out, which comes
    /// after a good first line at the earliest; from then on each call answers `Ended`.
    pub fn next(&mut self, alloc: Global) -> Result<Option<Paragraph<'a>>, ControlFault>
        ensures ok { IfOk result (λ found. step self.old ≡ (Ok found, self.new)) }
        ensures refused { IfErr result (λ fault. fault.kind ≢ Memory →
            step self.old ≡ (Err fault, self.new)) }
        ensures memory { IfErr result (λ fault. fault.kind ≡ Memory →
            MemoryEnds self.old fault self.new) }
    {
        let Some(bytes) = self.rest else {
            return Err(ControlFault {
                paragraph: self.passed,
                kind: ControlFaultKind::Ended,
            });
        };
        let Some((paragraph, rest)) = next_paragraph(bytes) else {
            return Ok(None);
        };
        self.passed += 1;
        self.rest = None;
        match Paragraph::read(alloc, paragraph) {
            Ok(found) => {
                self.rest = Some(rest);
                Ok(Some(found))
            }
            Err(kind) => Err(ControlFault {
                paragraph: self.passed,
                kind,
            }),
        }
    }
}
