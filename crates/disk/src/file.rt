// Image files of a kind: the check of one's bytes, and what is made of them.
ghost use Rattle.std.specs.Prelude.{◌≡◌, ℕ, Bool, List, Result};
ghost use Rattle.std.specs.Global.{Vec};
ghost use Rattle.disk.specs.declared.refusal.Refusal.{Refusal};
ghost use Rattle.disk.specs.Opening.{opened};

use crate::refusal::*;

pub trait ImageFile {
    // What the check says of a file's bytes.
    ghost checked: { List ℕ → Result Unit Refusal };

    // The file that an image is of.
    ghost bytes: { Self → Vec ℕ };

    // Whether nothing of it may be written.
    ghost locked: { Self → Bool };

    // Whether these bytes are an image.
    fn check(file: &[u8]) -> Result<(), Refusal>
        ensures { result ≡ checked file.now };

    // The image of any bytes, those that the check refuses too.
    fn new(file: Vec<u8>, protected: bool) -> Self
        ensures image { bytes result ≡ file }
        ensures protected { locked result ≡ protected };

    // The check, and then the making.
    fn open(file: Vec<u8>, protected: bool) -> Result<Self, Refusal>
        ensures { opened (checked file.items) (λ d. (bytes d ≡ file) × (locked d ≡ protected)) result }
    {
        Self::check(file.as_slice())?;
        Ok(Self::new(file, protected))
    }

    // Whether nothing of it may be written.
    fn is_protected(&self) -> bool
        ensures { result ≡ locked self.now };

    // Hands the file back.
    fn into_bytes(self) -> Vec<u8>
        ensures { result ≡ bytes self };
}
