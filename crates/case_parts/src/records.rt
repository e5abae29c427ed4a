// The records, each read whole, and the test of a span.
#![tactic(auto, using(crate::proofs::LayoutLaws::part_bytes))]

ghost use Rattle.std.specs.Prelude.{◌≡◌, ◌<◌, ◌≤◌};
ghost use Rattle.definition.specs.11-Layout.{log_part, observer_part, condition_part, obligation_part, label_part, step_part, premise_part, count, records_in, part as part_of};
ghost use Rattle.definition.specs.15-Records.{observer as observer_of, condition_formula, premise_step, span_fault};
ghost use Rattle.definition.specs.18-Admission.{Parted};
ghost use Rattle.case_parts.specs.Records.{Recorded, RowFields, ObligationFields, LabelFields, StepFields};

use crate::layout::{
    CONDITIONS, LABELS, LOG, OBLIGATIONS, OBSERVERS, PREMISES, STEPS, part, record_bytes,
};
use words::read_word;

// Record `k` of the bytes of a part `p`.
fn record_of(bytes: &[u8], p: usize, k: usize) -> &[u8]
    requires { k < records_in bytes.now p }
    ensures { Recorded bytes.now p k result.now }
{
    let each = record_bytes(p);
    let at = each * k;
    &bytes[at..at + each]
}

// Record `k` of part `p` of a file.
fn record_in(file: &[u8], p: usize, k: usize) -> &[u8]
    requires { Parted file.now × (p < 8) × (k < count file.now p) }
    ensures { Recorded (part_of file.now p) p k result.now }
{
    let bytes = part(file, p);
    record_of(bytes, p, k)
}

// A log, by the bytes of its rows and of its observers.
#[derive(Clone, Copy)]
pub struct Log<'a> {
    pub rows: &'a [u8],
    pub observers: &'a [u8],
}

// The log of a file.
pub fn log_of(file: &[u8]) -> Log<'_>
    requires { Parted file.now }
    ensures { (result.rows.now ≡ part_of file.now log_part) × (result.observers.now ≡ part_of file.now observer_part) }
{
    Log {
        rows: part(file, LOG),
        observers: part(file, OBSERVERS),
    }
}

// A log row: its action, and where its observers begin and how many they are.
#[derive(Clone, Copy, Debug, PartialEq, Eq)]
pub struct LogRow {
    pub action: u16,
    pub from: u16,
    pub len: u16,
}

// Row `k` of a log, whose rows have these bytes.
pub fn log_row_at(rows: &[u8], k: usize) -> LogRow
    requires { k < records_in rows.now log_part }
    ensures { RowFields rows.now k result }
{
    let bytes = record_of(rows, LOG, k);
    LogRow {
        action: read_word(bytes, 0),
        from: read_word(bytes, 2),
        len: read_word(bytes, 4),
    }
}

// Observer entry `j` of a log, whose observers have these bytes.
pub fn observer(observers: &[u8], j: usize) -> u16
    requires { j < records_in observers.now observer_part }
    ensures { result ≡ observer_of observers.now j }
{
    let bytes = record_of(observers, OBSERVERS, j);
    read_word(bytes, 0)
}

// The formula of condition `k`, or 65,535.
pub fn condition_formula(file: &[u8], k: usize) -> u16
    requires { Parted file.now × (k < count file.now condition_part) }
    ensures { result ≡ condition_formula file.now k }
{
    let bytes = record_in(file, CONDITIONS, k);
    read_word(bytes, 0)
}

// An obligation: its mark, its action, the hour by which it is due, and the log row that did it, or 65,535.
#[derive(Clone, Copy, Debug, PartialEq, Eq)]
pub struct Obligation {
    pub mark: u16,
    pub action: u16,
    pub due: u16,
    pub row: u16,
}

pub fn obligation_at(file: &[u8], k: usize) -> Obligation
    requires { Parted file.now × (k < count file.now obligation_part) }
    ensures { ObligationFields file.now k result }
{
    let bytes = record_in(file, OBLIGATIONS, k);
    Obligation {
        mark: read_word(bytes, 0),
        action: read_word(bytes, 2),
        due: read_word(bytes, 4),
        row: read_word(bytes, 6),
    }
}

// A label: its mark, and its policy or action.
#[derive(Clone, Copy, Debug, PartialEq, Eq)]
pub struct Label {
    pub mark: u16,
    pub formula: u16,
}

pub fn label_at(file: &[u8], k: usize) -> Label
    requires { Parted file.now × (k < count file.now label_part) }
    ensures { LabelFields file.now k result }
{
    let bytes = record_in(file, LABELS, k);
    Label {
        mark: read_word(bytes, 0),
        formula: read_word(bytes, 2),
    }
}

// A step: its rule, formula and argument, and where its premises begin and how many they are.
#[derive(Clone, Copy, Debug, PartialEq, Eq)]
pub struct Step {
    pub rule: u16,
    pub formula: u16,
    pub argument: u16,
    pub from: u16,
    pub len: u16,
}

pub fn step_at(file: &[u8], k: usize) -> Step
    requires { Parted file.now × (k < count file.now step_part) }
    ensures { StepFields file.now k result }
{
    let bytes = record_in(file, STEPS, k);
    Step {
        rule: read_word(bytes, 0),
        formula: read_word(bytes, 2),
        argument: read_word(bytes, 4),
        from: read_word(bytes, 6),
        len: read_word(bytes, 8),
    }
}

// The step that premise entry `j` names.
pub fn premise_step(file: &[u8], j: usize) -> u16
    requires { Parted file.now × (j < count file.now premise_part) }
    ensures { result ≡ premise_step file.now j }
{
    let bytes = record_in(file, PREMISES, j);
    read_word(bytes, 0)
}

// Is a span at fault? It is `len` of the `entries`, from `from` on, and is due to begin at `due`; the last has to end with them.
pub fn bad_span(due: usize, from: usize, len: usize, last: bool, entries: usize) -> bool
    requires { (from ≤ 65535) × (len ≤ 65535) }
    ensures { result ≡ span_fault due from len last entries }
{
    let end = from + len;
    from != due || entries < end || (last && end < entries)
}
