//! The values of the rows of what is kept, as a statement binds them.
ghost use Rattle.std.specs.Prelude.{◌≡◌, ◌≤◌, ◌<◌, ◌^◌, IfSome};
ghost use Rattle.sqlite.specs.Value.{owned};
ghost use Rattle.sqlite.specs.Values.{bound, bound_value};
ghost use Rattle.sqlite.specs.declared.types.Value.TheVariants.{Int};
ghost use Rattle.wb_states.specs.Queue.{rank_of};
ghost use Rattle.wb_states.specs.Limits.{count_limit};
ghost use Rattle.wb_rows.specs.Cells.{arch_cells, builder_cells, flag, number, number_or_null, record_cells, text_or_null};
ghost use Rattle.wb_rows.specs.Reading.{state_cell, text_cell};

use deb_text::Text;
use deb_version::Version;
use sqlite::types::ValueRef;
use wb_states::{OsCpu, Record, State, rank};

/// The values of the 16 columns of a record's row: its architecture, its source package, its fields and its rank.
/// The take number, if there is one, is at most 1000000000000. Takes no memory (this project's own).
pub fn record_values<'a>(
    arch: &'a Text,
    source: &'a Text,
    current: &'a Record,
) -> [ValueRef<'a>; 16]
    requires given { IfSome current.now.take (λ take_number. take_number ≤ count_limit) }
    ensures value { bound result ≡ record_cells ((arch.now, source.now), current.now) }
{
    [
        text_value(arch),
        text_value(source),
        state_value(current.state),
        version_value(&current.version),
        text_value(&current.priority),
        text_value(&current.section),
        flag_value(current.earlier),
        rebuild_value(current.number),
        optional_text_value(&current.holder),
        take_value(current.take),
        text_value(&current.waits),
        optional_text_value(&current.depends),
        text_value(&current.note),
        text_value(&current.message),
        build_priority_value(current),
        rank_value(current),
    ]
}

/// The values of the 3 columns of an architecture's row: its name and its two words. Takes no memory (this
/// project's own).
pub fn arch_values<'a>(name: &'a Text, words: &'a OsCpu) -> [ValueRef<'a>; 3]
    ensures value { bound result ≡ arch_cells (name.now, words.now) }
{
    [
        text_value(name),
        text_value(&words.os),
        text_value(&words.cpu),
    ]
}

/// The values of the 2 columns of the row of a builder and an architecture for which it was added. Takes no
/// memory (this project's own).
pub fn builder_values<'a>(name: &'a Text, arch: &'a Text) -> [ValueRef<'a>; 2]
    ensures value { bound result ≡ builder_cells (name.now, arch.now) }
{
    [text_value(name), text_value(arch)]
}

pub(crate) fn text_value<'a>(text: &'a Text) -> ValueRef<'a>
    ensures { bound_value (owned result) ≡ text_cell text.now }
{
    ValueRef::Text(text.as_str().as_bytes())
}

fn optional_text_value<'a>(text: &'a Option<Text>) -> ValueRef<'a>
    ensures { bound_value (owned result) ≡ text_or_null text.now }
{
    match text {
        Some(text) => text_value(text),
        None => ValueRef::Null,
    }
}

pub(crate) fn version_value<'a>(version: &'a Version) -> ValueRef<'a>
    ensures { bound_value (owned result) ≡ text_cell version.now }
{
    ValueRef::Text(version.text().as_bytes())
}

fn state_value<'a>(state: State) -> ValueRef<'a>
    ensures { bound_value (owned result) ≡ state_cell state }
{
    ValueRef::Int(i64::from(state.code()))
}

pub(crate) fn rebuild_value<'a>(rebuild: u16) -> ValueRef<'a>
    ensures { bound_value (owned result) ≡ number rebuild }
{
    ValueRef::Int(i64::from(rebuild))
}

fn build_priority_value<'a>(current: &Record) -> ValueRef<'a>
    ensures { bound_value (owned result) ≡ Int current.now.build_priority }
{
    ValueRef::Int(i64::from(current.build_priority))
}

fn rank_value<'a>(current: &Record) -> ValueRef<'a>
    ensures { bound_value (owned result) ≡ number (rank_of current.now) }
{
    ValueRef::Int(i64::from(rank(current)))
}

/// A place in a list, below 2^63.
pub(crate) fn seq_value<'a>(seq: u64) -> ValueRef<'a>
    requires { seq < 2 ^ 63 }
    ensures { bound_value (owned result) ≡ number seq }
{
    ValueRef::Int(seq as i64)
}

fn take_value<'a>(take: Option<u64>) -> ValueRef<'a>
    requires { IfSome take (λ take_number. take_number ≤ count_limit) }
    ensures { bound_value (owned result) ≡ number_or_null take }
{
    match take {
        Some(take_number) => ValueRef::Int(take_number as i64),
        None => ValueRef::Null,
    }
}

pub(crate) fn flag_value<'a>(value: bool) -> ValueRef<'a>
    ensures { bound_value (owned result) ≡ flag value }
{
    ValueRef::Int(if value { 1 } else { 0 })
}
