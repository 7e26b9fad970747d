//! The answers to queries as compact JSON, with the keys of each object in byte order. The text of
//! a list is written record by record, so that no more than one of them is there as a value at a
//! time.
ghost use Rattle.std.specs.Prelude.{◌≡◌, ◌++◌, codes, decimal, false, IfOk, OnOk};
ghost use Rattle.std.specs.String.{string_bytes};
ghost use Rattle.json.specs.Print.{quoted};
ghost use Rattle.serde_json.specs.View.{view};
ghost use Rattle.serde_json.specs.Written.{compact_text, has_float};
ghost use Rattle.wb_states.specs.declared.query.Answer.TheVariants.{Archs, Builders, Queue};
ghost use Rattle.wb_states.specs.declared.query.Answer.TheVariants.{ByState, Mine, Depends};
ghost use Rattle.wb_states.specs.declared.query.Answer.TheVariants.{Office, Summary};
ghost use Rattle.wb_api.specs.Queries.{arch_text, archs_text, pair_text, pairs_text, query_text};
ghost use Rattle.wb_api.specs.Queries.{queue_text};
ghost use Rattle.wb_api.specs.Queries.{record_text, records_text, waiting_text};
ghost use Rattle.wb_api.specs.QueryValues.{value_of_arch, value_of_counts, value_of_depends};
ghost use Rattle.wb_api.specs.QueryValues.{value_of_office};
ghost use Rattle.wb_api.specs.QueryValues.{value_of_pair, value_of_summary};

use crate::row::{string_or_null, value_of_record, value_of_waiting};
use deb_text::Text;
use serde_json::{Value, json};
use std::alloc::{AllocError, Global};
use wb_states::{Answer, KeyedRecord, OsCpu, State, StateCounts};

/// The answer to a query as one JSON object (RFC 8259), with no space and no line feed.
///
/// The answer to `item` is the record. That to `mine` has the builder and its records, in the order
/// of their take numbers; that to `by-state` the architecture, the state and its records, in the
/// order of their names; and that to `queue` the architecture and the records that wait there, the
/// first to be built first. A record has under `build` the version of the binaries: the source
/// version, followed by `+bN` for a binary-only rebuild N. A missing holder or take number is
/// `null`. A record of a queue has this version and its source package alone. The answer to
/// `depends` has what the source package needs to be built, or `null` if it could not be read; only
/// there is it shown. That to `summary` has the number of records of each state under its name, and
/// how many commands the office accepted. That to `office` has this number, and the last take
/// number that was given; that to `archs` this number and each architecture with its words, by
/// name; that to `builders` this number and each builder with an architecture for which it was
/// added, by builder and then by architecture. Texts and numbers stand as in `reply_json`, and a
/// build priority below 0 after a minus sign. The only error is that there is no memory for the
/// text. The keys are this project's own.
#[tactic(auto, unfolding(crate::specs::Queries::query_text))]
pub fn query_json(alloc: Global, answer: &Answer) -> Result<String, AllocError>
    ensures value { IfOk result (λ text. string_bytes text ≡ query_text answer.now) }
{
    match answer {
        Answer::Queue { arch, records } => queue_json(alloc, arch.as_str(), records.as_slice()),
        Answer::ByState {
            arch,
            state,
            records,
        } => state_json(alloc, arch.as_str(), *state, records.as_slice()),
        Answer::Item(row) => record_json(alloc, row),
        Answer::Mine { builder, records } => mine_json(alloc, builder.as_str(), records.as_slice()),
        Answer::Depends {
            arch,
            source,
            depends,
        } => depends_json(alloc, arch.as_str(), source.as_str(), depends),
        Answer::Summary {
            accepted,
            arch,
            counts,
        } => summary_json(alloc, *accepted, arch.as_str(), counts),
        Answer::Office { accepted, handed } => office_json(alloc, *accepted, *handed),
        Answer::Archs { accepted, archs } => archs_json(alloc, *accepted, archs.as_slice()),
        Answer::Builders { accepted, pairs } => builders_json(alloc, *accepted, pairs.as_slice()),
    }
}

#[tactic(auto, unfolding(crate::specs::Queries::query_text))]
fn queue_json(alloc: Global, arch: &str, rows: &[KeyedRecord]) -> Result<String, AllocError>
    ensures value { IfOk result (λ text. string_bytes text ≡ query_text (Queue arch.now rows.now)) }
{
    let mut out = begun_with(alloc, "{\"arch\":", arch)?;
    out.push_str(",\"queue\":[")?;
    write_queue(alloc, &mut out, rows)?;
    out.push_str("]}")?;
    Ok(out)
}

#[tactic(auto, unfolding(crate::specs::Queries::query_text))]
fn state_json(
    alloc: Global,
    arch: &str,
    state: State,
    rows: &[KeyedRecord],
) -> Result<String, AllocError>
    ensures value { IfOk result (λ text.
        string_bytes text ≡ query_text (ByState arch.now state rows.now)) }
{
    let mut out = begun_with(alloc, "{\"arch\":", arch)?;
    out.push_str(",\"records\":[")?;
    write_records(alloc, &mut out, rows)?;
    out.push_str("],\"state\":")?;
    write_quoted(alloc, &mut out, state.name())?;
    out.push_str("}")?;
    Ok(out)
}

#[tactic(auto, unfolding(crate::specs::Queries::query_text))]
fn mine_json(alloc: Global, builder: &str, rows: &[KeyedRecord]) -> Result<String, AllocError>
    ensures value { IfOk result (λ text. string_bytes text ≡ query_text (Mine builder.now rows.now)) }
{
    let mut out = begun_with(alloc, "{\"builder\":", builder)?;
    out.push_str(",\"records\":[")?;
    write_records(alloc, &mut out, rows)?;
    out.push_str("]}")?;
    Ok(out)
}

/// Appends the objects of records, with a comma between each two.
#[tactic(auto, unfolding(crate::specs::Queries::records_text))]
fn write_records(alloc: Global, out: &mut String, rows: &[KeyedRecord]) -> Result<(), AllocError>
    ensures ok { OnOk result (string_bytes out.new ≡ string_bytes out.old ++ records_text rows.now) }
{
    if let [first, others @ ..] = rows {
        write_record(alloc, out, first)?;
        for row in others {
            out.push_str(",")?;
            write_record(alloc, out, row)?;
        }
    }
    Ok(())
}

/// Appends the objects of the records of a queue, with a comma between each two.
#[tactic(auto, unfolding(crate::specs::Queries::queue_text))]
fn write_queue(alloc: Global, out: &mut String, rows: &[KeyedRecord]) -> Result<(), AllocError>
    ensures ok { OnOk result (string_bytes out.new ≡ string_bytes out.old ++ queue_text rows.now) }
{
    if let [first, others @ ..] = rows {
        write_waiting(alloc, out, first)?;
        for row in others {
            out.push_str(",")?;
            write_waiting(alloc, out, row)?;
        }
    }
    Ok(())
}

#[tactic(auto, using(crate::proofs::QueryLemmas::printing_of_records))]
fn record_json(alloc: Global, row: &KeyedRecord) -> Result<String, AllocError>
    ensures value { IfOk result (λ text. string_bytes text ≡ record_text row.now) }
{
    let value = value_of_record(alloc, row)?;
    value.to_string(alloc)
}

fn write_record(alloc: Global, out: &mut String, row: &KeyedRecord) -> Result<(), AllocError>
    ensures ok { OnOk result (string_bytes out.new ≡ string_bytes out.old ++ record_text row.now) }
{
    let text = record_json(alloc, row)?;
    out.push_str(text.as_str())
}

#[tactic(auto, using(crate::proofs::QueryLemmas::printing_of_records))]
fn write_waiting(alloc: Global, out: &mut String, row: &KeyedRecord) -> Result<(), AllocError>
    ensures ok { OnOk result (string_bytes out.new ≡ string_bytes out.old ++ waiting_text row.now) }
{
    let value = value_of_waiting(alloc, row)?;
    write_value(alloc, out, &value)
}

/// The beginning of an object, up to its first key, and the text under it.
fn begun_with(alloc: Global, key: &str, text: &str) -> Result<String, AllocError>
    ensures value { IfOk result (λ out. string_bytes out ≡ key.now ++ quoted text.now) }
{
    let mut out = String::from_str(alloc, key)?;
    write_quoted(alloc, &mut out, text)?;
    Ok(out)
}

/// Appends a text between quotation marks.
#[tactic(auto, using(crate::proofs::QueryLemmas::printing_of_texts))]
fn write_quoted(alloc: Global, out: &mut String, text: &str) -> Result<(), AllocError>
    ensures ok { OnOk result (string_bytes out.new ≡ string_bytes out.old ++ quoted text.now) }
{
    let value = Value::try_from_str(alloc, text)?;
    write_value(alloc, out, &value)
}

/// Appends the text of a value.
fn write_value(alloc: Global, out: &mut String, value: &Value) -> Result<(), AllocError>
    ensures ok { OnOk result (has_float (view value.now) ≡ false
        → string_bytes out.new ≡ string_bytes out.old ++ compact_text (view value.now)) }
{
    let text = value.to_string(alloc)?;
    out.push_str(text.as_str())
}

#[tactic(auto, using(crate::proofs::QueryLemmas::printing_of_depends))]
fn depends_json(
    alloc: Global,
    arch: &str,
    source: &str,
    depends: &Option<Text>,
) -> Result<String, AllocError>
    ensures value { IfOk result (λ text.
        string_bytes text ≡ query_text (Depends arch.now source.now depends.now)) }
{
    let value = value_of_depends(alloc, arch, source, depends)?;
    value.to_string(alloc)
}

fn value_of_depends(
    alloc: Global,
    arch: &str,
    source: &str,
    depends: &Option<Text>,
) -> Result<Value, AllocError>
    ensures { IfOk result (λ value.
        view value ≡ value_of_depends arch.now source.now depends.now) }
{
    let depends = string_or_null(alloc, depends)?;
    json!(in alloc; {"arch": arch, "depends": depends, "source": source})
}

#[tactic(auto, using(crate::proofs::QueryLemmas::printing_of_summaries))]
fn summary_json(
    alloc: Global,
    accepted: u64,
    arch: &str,
    counts: &StateCounts,
) -> Result<String, AllocError>
    ensures value { IfOk result (λ text.
        string_bytes text ≡ query_text (Summary accepted arch.now counts.now)) }
{
    let value = value_of_summary(alloc, accepted, arch, counts)?;
    value.to_string(alloc)
}

fn value_of_summary(
    alloc: Global,
    accepted: u64,
    arch: &str,
    counts: &StateCounts,
) -> Result<Value, AllocError>
    ensures { IfOk result (λ value. view value ≡ value_of_summary accepted arch.now counts.now) }
{
    let counts = value_of_counts(alloc, counts)?;
    json!(in alloc; {"accepted": accepted, "arch": arch, "counts": counts})
}

/// The object of the numbers of records, under the names of the states.
fn value_of_counts(alloc: Global, counts: &StateCounts) -> Result<Value, AllocError>
    ensures { IfOk result (λ value. view value ≡ value_of_counts counts.now) }
{
    json!(in alloc; {
        "BD-Uninstallable": counts.bd_uninstallable,
        "Build-Attempted": counts.build_attempted,
        "Building": counts.building,
        "Built": counts.built,
        "Dep-Wait": counts.dep_wait,
        "Failed": counts.failed,
        "Installed": counts.installed,
        "Needs-Build": counts.needs_build,
        "Not-For-Us": counts.not_for_us,
        "Uploaded": counts.uploaded
    })
}

#[tactic(auto, using(crate::proofs::QueryLemmas::printing_of_the_office))]
fn office_json(alloc: Global, accepted: u64, handed: u64) -> Result<String, AllocError>
    ensures value { IfOk result (λ text. string_bytes text ≡ query_text (Office accepted handed)) }
{
    let value = value_of_office(alloc, accepted, handed)?;
    value.to_string(alloc)
}

fn value_of_office(alloc: Global, accepted: u64, handed: u64) -> Result<Value, AllocError>
    ensures { IfOk result (λ value. view value ≡ value_of_office accepted handed) }
{
    json!(in alloc; {"accepted": accepted, "handed": handed})
}

#[tactic(auto, unfolding(crate::specs::Queries::query_text))]
fn archs_json(alloc: Global, accepted: u64, archs: &[(Text, OsCpu)]) -> Result<String, AllocError>
    ensures value { IfOk result (λ text.
        string_bytes text ≡ query_text (Archs accepted archs.now)) }
{
    let mut out = begun_with_accepted(alloc, accepted)?;
    out.push_str(",\"archs\":[")?;
    write_archs(alloc, &mut out, archs)?;
    out.push_str("]}")?;
    Ok(out)
}

#[tactic(auto, unfolding(crate::specs::Queries::query_text))]
fn builders_json(alloc: Global, accepted: u64, pairs: &[(Text, Text)]) -> Result<String, AllocError>
    ensures value { IfOk result (λ text.
        string_bytes text ≡ query_text (Builders accepted pairs.now)) }
{
    let mut out = begun_with_accepted(alloc, accepted)?;
    out.push_str(",\"builders\":[")?;
    write_pairs(alloc, &mut out, pairs)?;
    out.push_str("]}")?;
    Ok(out)
}

/// The beginning of an object whose first key is `accepted`, with its number.
fn begun_with_accepted(alloc: Global, accepted: u64) -> Result<String, AllocError>
    ensures value { IfOk result (λ out.
        string_bytes out ≡ codes "{\"accepted\":" ++ decimal accepted) }
{
    let mut out = String::from_str(alloc, "{\"accepted\":")?;
    write_value(alloc, &mut out, &Value::from(accepted))?;
    Ok(out)
}

/// Appends the objects of architectures, with a comma between each two.
#[tactic(auto, unfolding(crate::specs::Queries::archs_text))]
fn write_archs(alloc: Global, out: &mut String, archs: &[(Text, OsCpu)]) -> Result<(), AllocError>
    ensures ok { OnOk result (string_bytes out.new ≡ string_bytes out.old ++ archs_text archs.now) }
{
    if let [first, others @ ..] = archs {
        write_arch(alloc, out, first)?;
        for arch in others {
            out.push_str(",")?;
            write_arch(alloc, out, arch)?;
        }
    }
    Ok(())
}

#[tactic(auto, using(crate::proofs::QueryLemmas::printing_of_the_office))]
fn write_arch(alloc: Global, out: &mut String, arch: &(Text, OsCpu)) -> Result<(), AllocError>
    ensures ok { OnOk result (string_bytes out.new ≡ string_bytes out.old ++ arch_text arch.now) }
{
    let value = value_of_arch(alloc, arch)?;
    write_value(alloc, out, &value)
}

fn value_of_arch(alloc: Global, arch: &(Text, OsCpu)) -> Result<Value, AllocError>
    ensures { IfOk result (λ value. view value ≡ value_of_arch arch.now) }
{
    let (name, words) = arch;
    json!(in alloc; {
        "arch": name.as_str(),
        "cpu": words.cpu.as_str(),
        "os": words.os.as_str()
    })
}

/// Appends the objects of builders, with a comma between each two.
#[tactic(auto, unfolding(crate::specs::Queries::pairs_text))]
fn write_pairs(alloc: Global, out: &mut String, pairs: &[(Text, Text)]) -> Result<(), AllocError>
    ensures ok { OnOk result (string_bytes out.new ≡ string_bytes out.old ++ pairs_text pairs.now) }
{
    if let [first, others @ ..] = pairs {
        write_pair(alloc, out, first)?;
        for pair in others {
            out.push_str(",")?;
            write_pair(alloc, out, pair)?;
        }
    }
    Ok(())
}

#[tactic(auto, using(crate::proofs::QueryLemmas::printing_of_the_office))]
fn write_pair(alloc: Global, out: &mut String, pair: &(Text, Text)) -> Result<(), AllocError>
    ensures ok { OnOk result (string_bytes out.new ≡ string_bytes out.old ++ pair_text pair.now) }
{
    let value = value_of_pair(alloc, pair)?;
    write_value(alloc, out, &value)
}

fn value_of_pair(alloc: Global, pair: &(Text, Text)) -> Result<Value, AllocError>
    ensures { IfOk result (λ value. view value ≡ value_of_pair pair.now) }
{
    let (builder, arch) = pair;
    json!(in alloc; {"arch": arch.as_str(), "builder": builder.as_str()})
}
