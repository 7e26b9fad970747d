//! Laws of the rows, each on a function that does nothing.
ghost use Rattle.std.specs.Prelude.{◌≡◌, ◌≤◌, ◌+◌, pos, IfSome, IsTrue, IsUtf8, List, Some, ℕ};
ghost use Rattle.std.specs.FinMap as map;
ghost use Rattle.std.specs.FinSet as set;
ghost use Rattle.wb_states.specs.declared.arch.OsCpu.{OsCpu as Words};
ghost use Rattle.wb_states.specs.declared.record.Record.{Record};
ghost use Rattle.wb_states.specs.Limits.{count_limit};
ghost use Rattle.wb_states.specs.Machine.{IsConsistent, Key, Machine};
ghost use Rattle.wb_states.specs.Queue.{Entry, rank_of};
ghost use Rattle.wb_rows.specs.Cells.{arch_cells, builder_cells, record_cells};
ghost use Rattle.wb_rows.specs.FirstSchema.{IsOfFirst, first_cells, first_rank_of, rank_step};
ghost use Rattle.wb_rows.specs.Reading.{IsReadable};

/// No two records, no two architectures and no two builders have one row.
/// Source: this project's own.
pub fn rows_differ()
    ensures records { (one other : Entry) → record_cells one ≡ record_cells other → one ≡ other }
    ensures archs { (one other : List ℕ × Words) → arch_cells one ≡ arch_cells other → one ≡ other }
    ensures builders { (one other : Key) → builder_cells one ≡ builder_cells other → one ≡ other }
{}

/// A record of build priority 0 has a rank that is greater by 348000 than its rank by the first schema. No two records
/// of the first schema have one row.
/// Source: this project's own.
pub fn ranks_of_both_schemas()
    ensures rank { (current : Record) → current.build_priority ≡ pos 0
        → rank_of current ≡ first_rank_of current + rank_step }
    ensures rows { (one other : Entry) → IsOfFirst one.1 → IsOfFirst other.1 → first_cells one ≡ first_cells other
        → one ≡ other }
{}

/// What a consistent office keeps can be read from its rows: the texts are UTF-8 and the numbers fit, take
/// numbers too.
/// Source: this project's own.
pub fn rows_of_an_office_are_read()
    ensures records { (machine : Machine) (arch source : List ℕ) (current : Record) → IsConsistent machine
        → map.get machine.records (arch, source) ≡ Some current → IsReadable ((arch, source), current) }
    ensures takes { (machine : Machine) (arch source : List ℕ) (current : Record) → IsConsistent machine
        → map.get machine.records (arch, source) ≡ Some current
        → IfSome current.take (λ take_number. take_number ≤ count_limit) }
    ensures archs { (machine : Machine) (name : List ℕ) (words : Words) → IsConsistent machine
        → map.get machine.archs name ≡ Some words → IsUtf8 name × IsUtf8 words.os × IsUtf8 words.cpu }
    ensures builders { (machine : Machine) (builder arch : List ℕ) → IsConsistent machine
        → IsTrue (set.contains machine.builders (builder, arch)) → IsUtf8 builder × IsUtf8 arch }
{}
