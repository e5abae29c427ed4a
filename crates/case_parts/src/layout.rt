// The header and the parts: checks 1 and 2, and reading from the header and from a part. The numbers of the layout stand here, but for the places of the fields within a record, which are in `records.rt`.
ghost use Rattle.std.specs.Prelude.{◌≡◌, ◌<◌, ◌≤◌, length, ltb};
ghost use Rattle.definition.specs.04-Checks.{in_order};
ghost use Rattle.definition.specs.11-Layout.{agent_of, action_of, hour_of, offset, size, end, count, header_bytes, record_bytes, most_records, due_offset, bad_length, orphans, is_misplaced, faulty_part, layout_checks, records_in, part as part_of};
ghost use Rattle.definition.specs.18-Admission.{Parted};
ghost use Rattle.words.specs.Meanings.{run_meant};

use words::{Check, Refusal, each, single};

// The bytes of a header, and of the largest file.
const HEADER_BYTES: usize = 38;

pub const LARGEST_FILE: usize = 47910;

// Where the header has the audited agent, the audited action, the offset and the length of the first part, and the audit hour.
const AGENT: usize = 0;

const ACTION: usize = 2;

const FIRST_OFFSET: usize = 4;

const FIRST_SIZE: usize = 6;

const HOUR: usize = 36;

// The parts. A part's number is an index: its place in the header, and the place of a refusal by check 2.
pub const FORMULAS: usize = 0;

pub const LOG: usize = 1;

pub const OBSERVERS: usize = 2;

pub const CONDITIONS: usize = 3;

pub const OBLIGATIONS: usize = 4;

pub const LABELS: usize = 5;

pub const STEPS: usize = 6;

pub const PREMISES: usize = 7;

// Of each part, the bytes of a record, and the most records that it may have.
const RECORD_BYTES: [usize; 8] = [8, 6, 2, 2, 8, 4, 10, 2];

const MOST_RECORDS: [usize; 8] = [1024, 1024, 4096, 64, 64, 32, 2048, 2048];

// The bytes of a record of part `p`, or 1 where there is no such part.
pub fn record_bytes(p: usize) -> usize
    ensures { result ≡ record_bytes p }
{
    RECORD_BYTES.get(p).copied().unwrap_or(1)
}

// The most records that part `p` may have.
fn most_records(p: usize) -> usize
    ensures { result ≡ most_records p }
{
    MOST_RECORDS.get(p).copied().unwrap_or(0)
}

// Where part `p` begins, as the header says it.
pub fn part_offset(file: &[u8], p: usize) -> u16
    requires { (header_bytes ≤ length file.now) × (p < 8) }
    ensures { result ≡ offset file.now p }
{
    words::read_word(file, 4 * p + FIRST_OFFSET)
}

// How many bytes part `p` has, as the header says it.
pub fn part_size(file: &[u8], p: usize) -> u16
    requires { (header_bytes ≤ length file.now) × (p < 8) }
    ensures { result ≡ size file.now p }
{
    words::read_word(file, 4 * p + FIRST_SIZE)
}

// Check 1.
fn bad_length(file: &[u8]) -> bool
    ensures { result ≡ bad_length file.now }
{
    file.len() < HEADER_BYTES || LARGEST_FILE < file.len()
}

// Where part `p` has to begin.
fn due_offset(file: &[u8], p: usize) -> usize
    requires { (header_bytes ≤ length file.now) × (p < 8) }
    ensures { result ≡ due_offset file.now p }
{
    if p == 0 {
        HEADER_BYTES
    } else {
        part_offset(file, p - 1) as usize + part_size(file, p - 1) as usize
    }
}

// Has part `q` records, and part `p` none?
fn has_orphans(file: &[u8], p: usize, q: usize) -> bool
    requires { (header_bytes ≤ length file.now) × ((p < 8) × (q < 8)) }
    ensures { result ≡ orphans file.now p q }
{
    part_size(file, p) == 0 && 0 < part_size(file, q)
}

// Is part `p` not where it is due, no whole number of records, over the limit, or not all in the file?
fn misplaced(file: &[u8], p: usize) -> bool
    requires { (header_bytes ≤ length file.now) × (p < 8) }
    ensures { result ≡ is_misplaced file.now p }
{
    let from = part_offset(file, p) as usize;
    let bytes = part_size(file, p) as usize;
    let each = record_bytes(p);
    from != due_offset(file, p)
        || bytes % each != 0
        || most_records(p) < bytes / each
        || file.len() < from + bytes
}

// Does the file go on behind part `p`?
fn goes_on(file: &[u8], p: usize) -> bool
    requires { (header_bytes ≤ length file.now) × (p < 8) }
    ensures { result ≡ ltb (end file.now p) (length file.now) }
{
    let from = part_offset(file, p) as usize;
    let bytes = part_size(file, p) as usize;
    from + bytes < file.len()
}

// Check 2 of part `p`.
fn faulty_part(file: &[u8], p: usize) -> bool
    requires { (header_bytes ≤ length file.now) × (p < 8) }
    ensures { result ≡ faulty_part file.now p }
{
    misplaced(file, p)
        || (p == PREMISES && goes_on(file, p))
        || (p == OBSERVERS && has_orphans(file, LOG, OBSERVERS))
        || (p == PREMISES && has_orphans(file, STEPS, PREMISES))
}

// Checks 1 and 2.
pub fn check_layout(file: &[u8]) -> Result<(), Refusal>
    ensures { run_meant result ≡ in_order (layout_checks file.now) }
{
    single(Check::Length, 0, bad_length(file))?;
    each(Check::Part, 8, |p| faulty_part(file, p))
}

// The audited agent.
pub fn agent_of(file: &[u8]) -> u16
    requires { Parted file.now }
    ensures { result ≡ agent_of file.now }
{
    words::read_word(file, AGENT)
}

// The audited action.
pub fn action_of(file: &[u8]) -> u16
    requires { Parted file.now }
    ensures { result ≡ action_of file.now }
{
    words::read_word(file, ACTION)
}

// The audit hour.
pub fn hour_of(file: &[u8]) -> u16
    requires { Parted file.now }
    ensures { result ≡ hour_of file.now }
{
    words::read_word(file, HOUR)
}

// The bytes of part `p`.
pub fn part(file: &[u8], p: usize) -> &[u8]
    requires { Parted file.now × (p < 8) }
    ensures { result.now ≡ part_of file.now p }
{
    let from = part_offset(file, p) as usize;
    let bytes = part_size(file, p) as usize;
    &file[from..from + bytes]
}

// The number of records of part `p`.
pub fn count_of(file: &[u8], p: usize) -> usize
    requires { Parted file.now × (p < 8) }
    ensures { (result ≡ count file.now p) × (result ≤ most_records p) }
{
    let bytes = part_size(file, p) as usize;
    let each = record_bytes(p);
    bytes / each
}

// How many records the bytes of a part `p` are.
pub fn records_in(bytes: &[u8], p: usize) -> usize
    ensures { result ≡ records_in bytes.now p }
{
    let each = record_bytes(p);
    bytes.len() / each
}
