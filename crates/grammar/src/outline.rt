// Terms with what is read of them by item bytes and lengths.
ghost use Rattle.std.specs.Prelude.{◌≡◌};
ghost use Rattle.grammar.specs.Places.{LaidOut};
ghost use Rattle.grammar.specs.Props.{LaidOut_prop};

use crate::{Layout, read_layout};

// Terms and their layout.
#[derive(Clone, Copy)]
pub struct Outline<'a> {
    pub terms: &'a [u8],
    pub layout: Layout,
    pub ghost laid_out: { LaidOut terms.now layout } by { LaidOut_prop terms.now layout },
}

impl<'a> Outline<'a> {
    // The outline of terms.
    pub fn of(terms: &'a [u8]) -> Outline<'a>
        ensures { result.terms.now ≡ terms.now }
    {
        Outline {
            terms,
            layout: read_layout(terms),
        }
    }
}
