//! Texts by name.
ghost use Rattle.std.specs.Prelude.{◌≡◌, ◌+◌, ℕ, List, [], ◌∷◌, Option, None, IfOk, IfSome, take};
ghost use Rattle.texts.specs.Text.{longest_text};
ghost use Rattle.program_io.specs.Readings.{AddsReadings, KnownReadings, reading_of};

use crate::ReadFault;

/// The texts that the arguments name, such as files. An implementation must define only [`text`](Texts::text):
/// the contracts hold by themselves if it says nothing about the texts that are known.
pub trait Texts {
    // The text under each name, if it is known.
    ghost known: { Self → List ℕ → Option (List ℕ) } = { λ _ _. None };

    // The texts that were requested so far, and how each was read, if that is known. It may be forgotten, for
    // example if an allocation for recording it fails.
    ghost readings: { Self → KnownReadings } = { λ _. None };

    // The system's message on the text that couldn't be read, if that is known.
    ghost said: { Self → Option (List ℕ) } = { λ _. None };

    /// Returns all bytes of the text with this name. Of a text of more than 16,777,217 bytes, the first
    /// 16,777,217 are enough, since the others aren't used.
    ///
    /// # Errors
    /// `Read` if the text doesn't exist or can't be read to its end, `Memory` if an allocation fails.
    fn text(&mut self, name: &str) -> Result<Vec<u8>, ReadFault>
        ensures bytes { IfOk result (λ text. IfSome (known self.old name.now)
            (λ all. take (longest_text + 1) text.items ≡ take (longest_text + 1) all)) }
        ensures stays { known self.new ≡ known self.old }
        ensures reading { AddsReadings (readings self.old) (readings self.new)
            (reading_of name.now result ∷ []) };

    /// Returns the system's message on the last text that couldn't be read, such as `No such file or directory
    /// (os error 2)`, or `None` if there was no message or it wasn't kept.
    fn reason(&self) -> Option<&[u8]>
        ensures { IfSome result (λ reason. IfSome (said self.now) (λ words. reason.now ≡ words)) }
    {
        None
    }
}
