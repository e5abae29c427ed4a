// What C and Rust programs call. include/justification.h is the manual.
ghost use Rattle.std.specs.Prelude.{◌≡◌};
ghost use Rattle.definition.specs.14-Book.{book_admission, size_column};
ghost use Rattle.definition.specs.32-Numbers.{verdict_numbers, run_numbers, count_numbers};
ghost use Rattle.definition.specs.35-Index.{building};
ghost use Rattle.definition.specs.45-Promises.{Answered, AdmissionAnswered};
ghost use Rattle.definition.specs.47-Indexed.{AnsweredThrough};
ghost use Rattle.definition.specs.71-Nights.{lent_for, NightAnswered};
ghost use Rattle.answers.specs.Meanings.{verdict_numbers_meant, run_numbers_meant};

use answers::{RunNumbers, VerdictNumbers};

// The verdict on any bytes, and the room after it.
#[unsafe(no_mangle)]
pub extern "C" fn justification_check(file: &[u8], room: &mut [u16]) -> VerdictNumbers
    ensures { Answered verdict_numbers file.now room.old (verdict_numbers_meant result) room.new }
{
    VerdictNumbers::from(checker::check(file, room))
}

// The answer to any bytes as a case file, by checks 1 to 9.
#[unsafe(no_mangle)]
pub extern "C" fn justification_admit(file: &[u8]) -> RunNumbers
    ensures { AdmissionAnswered run_numbers file.now (run_numbers_meant result) }
{
    RunNumbers::from(case_file::admit(file))
}

// The index by observer of the log of any bytes as a case file, into a room of any length: checks 1 to 5, then 29.
#[unsafe(no_mangle)]
pub extern "C" fn justification_index(file: &[u8], index: &mut [u16]) -> VerdictNumbers
    ensures { (verdict_numbers_meant result ≡ count_numbers (building file.now index.old).answer) × (index.new ≡ (building file.now index.old).room) }
{
    VerdictNumbers::from(observer_index::build(file, index))
}

// The verdict on any bytes through any table as the index of their log, and the room after it.
#[unsafe(no_mangle)]
pub extern "C" fn justification_check_indexed(
    file: &[u8],
    index: &[u16],
    room: &mut [u16],
) -> VerdictNumbers
    ensures { AnsweredThrough verdict_numbers file.now index.now room.old (verdict_numbers_meant result) room.new }
{
    VerdictNumbers::from(observer_index::check_through(file, index, room))
}

// The verdicts on any bytes as files, by any bytes as the list of where they are, and the room after them: 33, or each file alone where the passes before it stopped writing.
#[unsafe(no_mangle)]
pub extern "C" fn justification_night(
    files: &[u8],
    list: &[u8],
    verdicts: &mut [[u16; 3]; 64],
    room: &mut [u16],
) -> VerdictNumbers
    ensures { NightAnswered count_numbers (lent_for files.now list.now verdicts.old room.old) (verdict_numbers_meant result) verdicts.new room.new }
{
    VerdictNumbers::from(night::check_night(files, list, verdicts, room))
}

// The answer to any bytes as a book, by checks 3 and 4: for the tests and the benchmark of the book alone.
#[unsafe(no_mangle)]
pub extern "C" fn formula_book_admit(book: &[u8]) -> RunNumbers
    ensures { run_numbers_meant result ≡ run_numbers (book_admission book.now) }
{
    RunNumbers::from(formula_book::admit(book))
}

// The same, and the column of sizes after it: byte k is the nodes of formula k.
#[unsafe(no_mangle)]
pub extern "C" fn formula_book_sizes(book: &[u8], sizes: &mut [u8; 1024]) -> RunNumbers
    ensures { (run_numbers_meant result ≡ run_numbers (book_admission book.now)) × (sizes.new ≡ size_column book.now sizes.old) }
{
    RunNumbers::from(formula_book::admit_into(book, sizes))
}
