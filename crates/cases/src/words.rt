// The words of a text, one after another.
ghost use Rattle.std.specs.Prelude.{◌<◌, ◌≤◌, ◌≡◌, ◌↔◌, IfSome, IsTrue, length};
ghost use Rattle.cases.specs.Left.{left};

// What is left of a text, from the start of a word on.
#[derive(Drop)]
pub(crate) struct Words<'a> {
    rest: &'a [u8],
}

// Spaces and line ends.
fn is_blank(byte: u8) -> bool {
    byte <= b' '
}

// What stands after the spaces, line ends and comments at the front of a text.
fn after_blanks(text: &[u8]) -> &[u8]
    ensures { length result.now ≤ length text.now }
{
    let mut in_comment = false;
    let word = text.iter().position(|byte| {
        in_comment = match byte {
            b'#' => true,
            b'\n' => false,
            _ => in_comment,
        };
        !in_comment && !is_blank(*byte)
    });
    match word {
        Some(at) => &text[at..],
        None => &[],
    }
}

// The word at the front of a text.
fn front_word(text: &[u8]) -> &[u8]
    ensures { length result.now ≤ length text.now }
{
    match text.iter().position(|byte| is_blank(*byte)) {
        Some(end) => &text[..end],
        None => text,
    }
}

impl<'a> Words<'a> {
    // The words of a text.
    pub(crate) fn new(text: &'a [u8]) -> Words<'a> {
        Words {
            rest: after_blanks(text),
        }
    }

    // Whether no word is left.
    pub(crate) fn is_empty(&self) -> bool
        ensures { IsTrue result ↔ (left self.now ≡ 0) }
    {
        self.rest.is_empty()
    }

    // Takes the next word, if one is left.
    pub(crate) fn next(&mut self) -> Option<&'a [u8]>
        ensures { left self.new ≤ left self.old }
    {
        self.next_if(|_| true)
    }

    // Takes the next word, if one is left and the test holds of it.
    pub(crate) fn next_if<F: FnOnce(&[u8]) -> bool>(&mut self, test: F) -> Option<&'a [u8]>
        requires { F.IsAlwaysCallable test }
        ensures falls { left self.new ≤ left self.old }
        ensures taken { IfSome result (λ word. left self.new < left self.old) }
    {
        let word = front_word(self.rest);
        if word.is_empty() || !test(word) {
            return None;
        }
        self.rest = after_blanks(&self.rest[word.len()..]);
        Some(word)
    }

    // Takes the next word, if it is this one. Whether it is.
    pub(crate) fn take(&mut self, keyword: &[u8]) -> bool
        ensures falls { left self.new ≤ left self.old }
        ensures taken { IsTrue result → left self.new < left self.old }
    {
        self.next_if(|word| word == keyword).is_some()
    }

    // Whether the next word is this one, or none is left.
    pub(crate) fn is_at(&self, keyword: &[u8]) -> bool {
        self.rest.is_empty() || front_word(self.rest) == keyword
    }
}
