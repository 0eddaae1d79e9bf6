// Room for bytes that are read.
ghost use Rattle.std.specs.Prelude.{◌≡◌, ◌≤◌, take};

use console::Failure;

// Room for so many bytes, and how many of them are filled, from the first on.
#[derive(Drop)]
pub(crate) struct Room<const SIZE: usize> {
    pub space: [u8; SIZE],
    pub filled: usize,
    ghost fits: { filled ≤ SIZE },
}

impl<const SIZE: usize> Room<SIZE> {
    // Room of which nothing is filled.
    pub(crate) fn empty() -> Room<SIZE> {
        Room {
            space: [0; SIZE],
            filled: 0,
        }
    }

    // The bytes that fill it.
    pub(crate) fn bytes(&self) -> &[u8]
        ensures { result.now ≡ take self.now.filled self.now.space }
    {
        &self.space[..self.filled]
    }

    // The bytes that fill it, lent to be changed.
    pub(crate) fn bytes_mut(&mut self) -> &mut [u8]
        ensures { result.now ≡ take self.old.filled self.old.space }
    {
        let filled = self.filled;
        let space = &mut self.space;
        &mut space[..filled]
    }

    // Puts a byte after those that fill it, if there is room for one.
    pub(crate) fn push(&mut self, byte: u8) -> Result<(), Failure>
        ensures { self.old.filled ≤ self.new.filled }
    {
        if SIZE <= self.filled {
            return Err(Failure::BadInput);
        }
        self.space[self.filled] = byte;
        self.filled += 1;
        Ok(())
    }

    // Puts the last so many bytes once more after those that fill it, a step added to them, if there is room. Past its end a step is 0.
    pub(crate) fn repeat(&mut self, size: usize, step: &[u8]) -> Result<(), Failure>
        requires { size ≤ self.old.filled }
        ensures { self.old.filled ≤ self.new.filled }
    {
        let start = self.filled;
        if SIZE - start < size {
            return Err(Failure::BadInput);
        }
        for i in 0..size {
            let byte = self.space[start + i - size];
            self.space[start + i] = byte.wrapping_add(step.get(i).copied().unwrap_or(0));
        }
        self.filled = start + size;
        Ok(())
    }
}
