ghost use Rattle.std.specs.Prelude.{◌≡◌, IfOk};

use plane_exact::NoMemory;
use std::alloc::Global;
use std::marker::Model;

/// A text, as a word of the command line or the name of a source. Contracts see its bytes.
#[derive(Debug, Drop)]
pub struct Word {
    text: String,
}

impl Model for Word {
    ghost use Rattle.std.specs.Prelude.{List, ℕ, string_bytes};

    ghost Value = { List ℕ };

    ghost view = { λ w. string_bytes w.text };
}

impl Word {
    /// A word with the bytes of a text.
    ///
    /// # Errors
    /// `NoMemory`.
    pub fn of(alloc: Global, text: &str) -> Result<Word, NoMemory>
        ensures bytes { IfOk result (λ word. word ≡ text.now) }
    {
        let text = String::from_str(alloc, text)?;
        Ok(Word { text })
    }

    /// The word's bytes.
    pub fn bytes(&self) -> &[u8]
        ensures bytes { result.now ≡ self.now }
    {
        self.text.as_bytes()
    }

    /// The word as text.
    pub(crate) fn as_str(&self) -> &str {
        self.text.as_str()
    }
}
