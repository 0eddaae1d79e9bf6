// Runs the five calls on the cases of its input and prints what each answers.
// The first lines of the file stdin say how a case is written.
#![tactic(auto)]

mod case;
mod room;
mod show;
mod state;
mod token;
mod words;

ghost use Rattle.std.specs.Prelude.{◌<◌, length};

use case::read_case;
use console::{Failure, end, read_up_to};
use state::State;
use words::Words;

// How many bytes there is room for of the text. One that fills them may go on past them, and counts as badly written.
const TEXT_ROOM: usize = 131072;

// Runs the cases of a text, up to the first that is not written as it should be.
fn run_cases(rt: &impl Print, text: &[u8]) -> Result<(), Failure> {
    let mut words = Words::new(text);
    let mut state = State::new();
    while !words.is_empty() {
        let case = read_case(&mut words, &mut state)?;
        state.run(rt, case);
    }
    Ok(())
}

// Reads the whole text and runs its cases. All memory is in arrays, so that none can be wanting.
fn run(rt: &(impl Print + Input)) -> Result<(), Failure> {
    let mut text = [0; TEXT_ROOM];
    let length = read_up_to(&mut rt.reader(), &mut text);
    if TEXT_ROOM <= length {
        return Err(Failure::BadInput);
    }
    run_cases(rt, &text[..length])
}

// Output that cannot be written has no sign of its own.
fn main(rt: HostRuntime) {
    let _ = end(&rt, run(&rt), "bad cases");
}
