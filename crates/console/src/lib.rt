// What the programs share: buffers filled from their input, and the rows of a report as values and lines.
#![tactic(auto)]

mod rows;

ghost use Rattle.std.specs.Prelude.{◌≡◌, ◌≢◌, ℕ, ◌⊎◌, List, ◌++◌, IfOk, IfSome, IsFalse, IsNone, IsOk, OnOk, ◌≤◌, length, take};
ghost use Rattle.std.specs.Io.KnownBytes.{Consumes};
ghost use Rattle.meaning.specs.declared.Row.{Row};
ghost use Rattle.format.specs.Bytes.{bytes_of};
ghost use Rattle.format.specs.Records.{row_bytes, value_width};
ghost use Rattle.console.specs.Rows.{StartsWithRow, rows_bytes};

use grammar::u32_at;
use meaning::{Row, Stage};
use report::ROW_LENGTH;
pub use rows::split_rows;
use std::io;
use std::io::Read;

// Why a program stops: its input is not written as it has to be, or its output failed.
#[derive(Debug, Drop)]
pub enum Failure {
    BadInput,
    Io(io::Error),
}

impl From<io::Error> for Failure {
    fn from(error: io::Error) -> Failure {
        Failure::Io(error)
    }
}

// Fills a buffer with the next bytes of the input. It is bad where it ends before them or fails.
pub fn read_bytes<R: Read>(input: &mut R, bytes: &mut [u8]) -> Result<(), Failure>
    ensures { OnOk result (Consumes (R.remaining input.old) (R.remaining input.new) bytes.new) }
{
    input.read_exact(bytes).map_err(|_| Failure::BadInput)
}

// Fills a buffer with the bytes of the input, as far as there are any. How many there are; they end where it ends or fails.
pub fn read_up_to<R: Read>(input: &mut R, buffer: &mut [u8]) -> usize
    ensures fits { result ≤ length buffer.new }
    ensures bytes { Consumes (R.remaining input.old) (R.remaining input.new) (take result buffer.new) }
{
    let mut filled = 0;
    while filled < buffer.len() {
        match input.read(&mut buffer[filled..]) {
            Ok(0) | Err(_) => break,
            Ok(count) => filled += count,
        }
    }
    filled
}

// The number that four bytes stand for.
fn number_of(bytes: &[u8]) -> u32
    requires { length bytes.now ≡ 4 }
    ensures { bytes_of 4 result ≡ bytes.now }
{
    u32_at(bytes, 0)
}

// The next number of the input, in four bytes.
pub fn read_number<R: Read>(input: &mut R) -> Result<u32, Failure>
    ensures { IfOk result (λ n. Consumes (R.remaining input.old) (R.remaining input.new) (bytes_of 4 n)) }
{
    let mut bytes = [0; 4];
    match input.read_exact(&mut bytes) {
        Ok(()) => Ok(number_of(&bytes)),
        Err(_) => Err(Failure::BadInput),
    }
}

// Whether nothing is left of the input, or it fails.
pub fn at_end<R: Read>(input: &mut R) -> bool
    ensures { IsFalse result → (more : List ℕ) × (length more ≡ 1) × Consumes (R.remaining input.old) (R.remaining input.new) more }
{
    input.read_exact(&mut [0]).is_err()
}

// How a program ends: where its input is not what it should be, with a line that says so.
pub fn end(rt: &impl Print, done: Result<(), Failure>, bad: &str) -> io::Result<()>
    ensures { IsOk done → IsOk result }
{
    match done {
        Ok(()) => Ok(()),
        Err(Failure::BadInput) => println!(rt; "{bad}"),
        Err(Failure::Io(error)) => Err(error),
    }
}

// The row that eighteen bytes stand for, if the first names a stage.
fn row_of(bytes: &[u8]) -> Option<Row>
    requires { length bytes.now ≡ 18 }
    ensures found { IfSome result (λ row. row_bytes value_width row ≡ bytes.now) }
    ensures none { IsNone result → (row : Row) → row_bytes value_width row ≢ bytes.now }
{
    let Ok(stage) = Stage::try_from(bytes[0]) else {
        return None;
    };
    Some(Row {
        stage,
        schema: bytes[1],
        key: u32_at(bytes, 2),
        privileged: u32_at(bytes, 6),
        liable: u32_at(bytes, 10),
        time: u32_at(bytes, 14),
    })
}

// The row at the front of bytes, if one stands there, and the bytes after it.
pub fn split_row(bytes: &[u8]) -> Option<(Row, &[u8])>
    ensures found { IfSome result (λ found. row_bytes value_width found.0 ++ found.1.now ≡ bytes.now) }
    ensures none { IsNone result → ¬ (StartsWithRow bytes.now) }
{
    if bytes.len() < ROW_LENGTH {
        return None;
    }
    let (row, rest) = bytes.split_at(ROW_LENGTH);
    Some((row_of(row)?, rest))
}

// Prints the rows at the front of a page, as many as are asked for and there, each after a margin. The bytes after them.
pub fn say_rows<'a>(rt: &impl Print, margin: &str, page: &'a [u8], count: usize) -> &'a [u8]
    ensures { (rows : List Row) × (rows_bytes rows ++ result.now ≡ page.now) × (length rows ≤ count) × ((length rows ≡ count) ⊎ ¬ (StartsWithRow result.now)) }
{
    let mut rest = page;
    for _ in 0..count {
        let Some((row, left)) = split_row(rest) else {
            break;
        };
        let _ = println!(rt; "{margin}{row}");
        rest = left;
    }
    rest
}
