//! Calls that run out of memory and are made again.
use passkey_types::OutOfMemory;
use std::alloc::Global;

/// What happened in a row, in addition to its output.
#[derive(Drop)]
pub struct Tries {
    is_refused: bool,
    is_different: bool,
}

/// A part that can be copied, by a call that may run out of memory.
pub trait Part: Drop {
    /// Returns an equal value.
    fn copy(&self, alloc: Global) -> Result<Self, OutOfMemory>;
}

impl Tries {
    pub fn new() -> Tries {
        Tries {
            is_refused: false,
            is_different: false,
        }
    }

    /// Records that a call ran out of memory, and is made again.
    pub fn refuse(&mut self) {
        self.is_refused = true;
    }

    /// Records whether two values that must be equal are equal.
    pub fn compare(&mut self, are_equal: bool) {
        if !are_equal {
            self.is_different = true;
        }
    }

    /// Returns the row's status if it has an output: 3 if a call ran out of memory and was made
    /// again.
    pub fn status(&self) -> u8 {
        if self.is_refused { 3 } else { 0 }
    }

    /// Returns whether two values that must be equal weren't.
    pub fn is_different(&self) -> bool {
        self.is_different
    }

    /// Returns a copy of the part. If memory runs out, the part is copied again.
    pub fn copied<T: Part>(&mut self, alloc: Global, part: &T) -> Result<T, OutOfMemory> {
        match part.copy(alloc) {
            Ok(copy) => Ok(copy),
            Err(OutOfMemory) => {
                self.refuse();
                part.copy(alloc)
            }
        }
    }

    /// Replaces the part by a copy.
    pub fn replace<T: Part>(&mut self, alloc: Global, part: &mut T) -> Result<(), OutOfMemory> {
        *part = self.copied(alloc, part)?;
        Ok(())
    }

    /// Does the same, and compares both.
    pub fn replace_equal<T: Part + PartialEq>(
        &mut self,
        alloc: Global,
        part: &mut T,
    ) -> Result<(), OutOfMemory> {
        let copy = self.copied(alloc, part)?;
        self.compare(copy == *part);
        *part = copy;
        Ok(())
    }

    /// Does the same for a part that may be absent.
    pub fn replace_some<T: Part>(
        &mut self,
        alloc: Global,
        part: &mut Option<T>,
    ) -> Result<(), OutOfMemory> {
        match part {
            Some(part) => self.replace(alloc, part),
            None => Ok(()),
        }
    }

    /// Does the same for each element.
    pub fn replace_each<T: Part>(
        &mut self,
        alloc: Global,
        parts: &mut [T],
    ) -> Result<(), OutOfMemory> {
        for part in parts {
            self.replace(alloc, part)?;
        }
        Ok(())
    }
}
