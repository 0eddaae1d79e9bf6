// Bytes and numbers as words write them.
ghost use Rattle.std.specs.Prelude.{◌<◌, ◌≤◌, IfSome, length};

use crate::room::Room;
use console::Failure;

// How many bytes there is room for of a step.
const STEP_ROOM: usize = 256;

// The value of a hexadecimal digit, in capitals.
fn digit(byte: u8) -> Option<u8>
    ensures { IfSome result (λ value. value < 16) }
{
    match byte {
        b'0'..=b'9' => Some(byte - b'0'),
        b'A'..=b'F' => Some(byte - b'A' + 10),
        _ => None,
    }
}

// Whether a word starts as a token does.
pub(crate) fn starts_token(word: &[u8]) -> bool {
    word.first().is_some_and(|byte| digit(*byte).is_some())
}

// The byte that two digits at the front of a text stand for, and what stands after them.
fn split_byte(text: &[u8]) -> Option<(u8, &[u8])>
    ensures { IfSome result (λ found. length found.1.now < length text.now) }
{
    if text.len() < 2 {
        return None;
    }
    Some((digit(text[0])? * 16 + digit(text[1])?, &text[2..]))
}

// Puts the bytes that the digits at the front of a text stand for into a room. There is at least one. What stands after the digits.
fn put_digits<'a, const SIZE: usize>(
    text: &'a [u8],
    room: &mut Room<SIZE>,
) -> Result<&'a [u8], Failure>
    ensures { room.old.filled ≤ room.new.filled }
{
    let mut rest = text;
    while let Some((byte, after)) = split_byte(rest) {
        room.push(byte)?;
        rest = after;
    }
    if rest.len() == text.len() {
        return Err(Failure::BadInput);
    }
    Ok(rest)
}

// The number that a word stands for, if it is of decimal digits and fits.
pub(crate) fn number_of(word: &[u8]) -> Option<usize> {
    if word.is_empty() {
        return None;
    }
    let mut number: usize = 0;
    for byte in word {
        if !byte.is_ascii_digit() {
            return None;
        }
        number = number
            .checked_mul(10)?
            .checked_add(usize::from(*byte - b'0'))?;
    }
    Some(number)
}

// How many copies of its bytes the end of a word asks for.
fn copies_of(rest: &[u8]) -> Result<usize, Failure> {
    match rest.first() {
        None => Ok(1),
        Some(b'*') => number_of(&rest[1..])
            .filter(|copies| *copies != 0)
            .ok_or(Failure::BadInput),
        Some(_) => Err(Failure::BadInput),
    }
}

// Puts the last so many bytes of a room there again, until there are so many copies, a step added from one to the next.
fn put_copies<const SIZE: usize>(
    room: &mut Room<SIZE>,
    size: usize,
    copies: usize,
    step: &[u8],
) -> Result<(), Failure>
    requires { size ≤ room.old.filled }
{
    for _ in 1..copies {
        room.repeat(size, step)?;
    }
    Ok(())
}

// The same, with the step and the copies that a text writes. A function of its own: room for a step is cleared only where there is one.
fn put_stepped<const SIZE: usize>(
    room: &mut Room<SIZE>,
    size: usize,
    text: &[u8],
) -> Result<(), Failure>
    requires { size ≤ room.old.filled }
{
    let mut step: Room<STEP_ROOM> = Room::empty();
    let rest = put_digits(text, &mut step)?;
    put_copies(room, size, copies_of(rest)?, step.bytes())
}

// Puts the bytes that a word writes into a room: digits, a step after '+', and how many copies there are after '*'.
pub(crate) fn put_token<const SIZE: usize>(
    word: &[u8],
    room: &mut Room<SIZE>,
) -> Result<(), Failure> {
    let start = room.filled;
    let rest = put_digits(word, room)?;
    let size = room.filled - start;
    if rest.first() == Some(&b'+') {
        put_stepped(room, size, &rest[1..])
    } else {
        put_copies(room, size, copies_of(rest)?, &[])
    }
}
