// An answer of calls 1 to 4 in one 64-bit number, for the library service.
#![tactic(auto)]

ghost use Rattle.std.specs.Prelude.{◌≡◌, ◌+◌, ◌*◌, ◌<◌, ◌^◌};
ghost use Rattle.calls.specs.Answers.{checked_answer, counted_answer, packed};

use calls::Refusal;

// A refusal's number, or 0, and a count or length, or 0, in one number.
#[tactic(auto, unfolding(calls::specs::Answers::packed))]
fn pack(number: u8, value: u64) -> u64
    requires { number * 4294967296 + value < 2 ^ 64 }
    ensures { result ≡ packed (record { number = number; value = value }) }
{
    u64::from(number) * 4294967296 + value
}

// The answer of an append or a report in one number.
#[tactic(auto, unfolding(calls::specs::Answers::counted_answer))]
pub fn pack_counted(counted: Result<usize, Refusal>) -> u64
    ensures { result ≡ packed (counted_answer counted) }
{
    match counted {
        Ok(count) => pack(0, count as u64),
        Err(refusal) => pack(u8::from(refusal), 0),
    }
}

// The answer of a check in one number: it counts nothing.
#[tactic(auto, unfolding(calls::specs::Answers::checked_answer, calls::specs::Answers::counted_answer))]
pub fn pack_checked(checked: Result<(), Refusal>) -> u64
    ensures { result ≡ packed (checked_answer checked) }
{
    pack_counted(checked.and(Ok(0)))
}
