//! The forms of what is kept, for whoever opens tables that others may have written.
ghost use Rattle.std.specs.Prelude.{◌≡◌, ◌↔◌, ◌||◌, IfSome, IsTrue, not};
ghost use Rattle.deb_text.specs.Text.{IsTextWithin, is_empty_text};
ghost use Rattle.wb_states.specs.Limits.{relations_limit};
ghost use Rattle.wb_states.specs.Names.{is_builder_name, is_label_text};
ghost use Rattle.wb_states.specs.Record.{FitsState, IsWellFormed};
ghost use Rattle.wb_states.specs.State.{is_dep_wait, is_held};
ghost use Rattle.wb_rows.specs.Forms.{HasLabels, HasNumbers, HasTexts};

use deb_relations::RELATIONS_LIMIT;
use deb_text::Text;
use wb_states::{
    BUILD_PRIORITY_LIMIT, NOTE_LIMIT, REBUILD_LIMIT, Record, State, is_builder, is_label,
};

/// Whether the fields of a record have their forms and limits and fit its state. Takes no memory (this project's
/// own).
pub fn is_well_formed(current: &Record) -> bool
    ensures value { IsTrue result ↔ IsWellFormed current.now }
{
    // The text of a version has its form, so it needs no test.
    let _version = current.version.text();
    has_labels(current) && has_numbers(current) && has_texts(current) && fits_state(current)
}

fn has_labels(current: &Record) -> bool
    ensures { IsTrue result ↔ HasLabels current.now }
{
    is_label_or_empty(&current.priority)
        && is_label_or_empty(&current.section)
        && is_builder_or_none(&current.holder)
}

fn is_label_or_empty(text: &Text) -> bool
    ensures { result ≡ (is_empty_text text.now || is_label_text text.now) }
{
    text.as_str().is_empty() || is_label(text.as_str())
}

fn is_builder_or_none(holder: &Option<Text>) -> bool
    ensures { IsTrue result ↔ IfSome holder.now (λ builder. IsTrue (is_builder_name builder)) }
{
    match holder {
        Some(builder) => is_builder(builder.as_str()),
        None => true,
    }
}

fn has_numbers(current: &Record) -> bool
    ensures { IsTrue result ↔ HasNumbers current.now }
{
    u64::from(current.number) <= REBUILD_LIMIT
        && -BUILD_PRIORITY_LIMIT <= current.build_priority
        && current.build_priority <= BUILD_PRIORITY_LIMIT
}

fn has_texts(current: &Record) -> bool
    ensures { IsTrue result ↔ HasTexts current.now }
{
    is_within(&current.waits, RELATIONS_LIMIT)
        && is_within_or_none(&current.depends)
        && is_within(&current.note, NOTE_LIMIT)
        && is_within(&current.message, NOTE_LIMIT)
}

fn is_within(text: &Text, most: usize) -> bool
    ensures { IsTrue result ↔ IsTextWithin most text.now }
{
    text.as_str().len() <= most
}

fn is_within_or_none(text: &Option<Text>) -> bool
    ensures { IsTrue result ↔ IfSome text.now (IsTextWithin relations_limit) }
{
    match text {
        Some(text) => is_within(text, RELATIONS_LIMIT),
        None => true,
    }
}

fn fits_state(current: &Record) -> bool
    ensures { IsTrue result ↔ FitsState current.now }
{
    let held = is_held(current.state);
    current.holder.is_some() == held
        && current.take.is_some() == held
        && has_waits(current) == is_dep_wait(current.state)
}

fn has_waits(current: &Record) -> bool
    ensures { result ≡ not (is_empty_text current.now.waits) }
{
    !current.waits.as_str().is_empty()
}

fn is_held(state: State) -> bool
    ensures { result ≡ is_held state }
{
    matches!(&state, State::Building | State::Built | State::Uploaded)
}

fn is_dep_wait(state: State) -> bool
    ensures { result ≡ is_dep_wait state }
{
    matches!(&state, State::DepWait)
}
