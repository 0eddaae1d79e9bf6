// A call's answer in the form in which a case has it.
use calls::Refusal;

// The number of the refusal, or 0; and the value, or what stands for none.
#[derive(Clone, Copy, PartialEq)]
pub(crate) struct Answer<T> {
    pub refusal: u32,
    pub value: T,
}

impl<T> Answer<T> {
    // What a call answered; with a refusal there is what stands for no value.
    pub(crate) fn of(answer: Result<T, Refusal>, nothing: T) -> Answer<T>
    where
        T: Drop,
    {
        match answer {
            Ok(value) => Answer { refusal: 0, value },
            Err(refusal) => Answer {
                refusal: u32::from(u8::from(refusal)),
                value: nothing,
            },
        }
    }
}
