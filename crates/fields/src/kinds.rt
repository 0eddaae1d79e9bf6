// The kinds that terms declare, by their bytes.
ghost use Rattle.std.specs.Prelude.{◌≡◌, ◌+◌, ◌≤◌, length, take, drop};
ghost use Rattle.meaning.specs.Terms.{kind_at};
ghost use Rattle.format.specs.Grammar.{file_of};
ghost use Rattle.format.specs.Fields.{head_wrong, terms_of};

use crate::carries;
use grammar::u16_at;
use meaning::NormType;

// How many kinds terms declare; each stands in five bytes, the first at the front.
#[derive(Clone, Copy)]
pub struct Kinds<'a> {
    pub terms: &'a [u8],
    pub count: usize,
    pub ghost counted: { count ≡ length (file_of terms.now).kinds },
}

impl Kinds<'_> {
    // The mask of a kind; past the last kind it is empty.
    pub fn mask_of(self, kind: u8) -> u16
        ensures { result ≡ (kind_at (terms_of self.entry.terms.now) kind).mask }
    {
        let k = usize::from(kind);
        if self.count <= k {
            return 0;
        }
        u16_at(self.terms, 5 * k + 2)
    }

    // The key attribute of a kind; past the last kind it is 0.
    pub fn key_of(self, kind: u8) -> u8
        ensures { result ≡ (kind_at (terms_of self.entry.terms.now) kind).key }
    {
        let k = usize::from(kind);
        if self.count <= k {
            return 0;
        }
        self.terms[5 * k + 4]
    }

    // Refusal 3 at the item 02 whose body starts at a place: type, subject kind, parties.
    pub fn head_wrong(self, at: usize) -> bool
        requires { at + 4 ≤ length self.terms.now }
        ensures { result ≡ head_wrong (terms_of self.entry.terms.now) (take 4 (drop at self.entry.terms.now)) }
    {
        if NormType::try_from(self.terms[at]).is_err() {
            return true;
        }
        let subject = self.terms[at + 1];
        if self.count <= usize::from(subject) {
            return true;
        }
        let mask = self.mask_of(subject);
        if !carries(mask, self.terms[at + 2]) {
            return true;
        }
        !carries(mask, self.terms[at + 3])
    }
}
