ghost use Rattle.std.specs.Prelude.{◌≡◌, ℕ, ◌<◌, List, [], ◌∷◌, ◌++◌, length, OnOk, OnErr, IfSome, IfNone, Some, None, slice_index_or};
ghost use Rattle.geosop_io.specs.Pairs.{bytes_of};

use crate::word::Word;
use plane_exact::NoMemory;
use std::alloc::Global;
use std::marker::Model;

/// Bytes under a name.
#[derive(Debug, Drop)]
struct Named {
    name: Word,
    bytes: Vec<u8>,
}

/// Bytes under names, in order. Where a name stands twice, its first pair counts.
#[derive(Debug, Drop)]
pub struct NamedBytes {
    alloc: Global,
    pairs: Vec<Named>,
}

impl Model for NamedBytes {
    ghost use Rattle.std.specs.Prelude.{List, ℕ, map};

    ghost Value = { List (List ℕ × List ℕ) };

    ghost view = { λ n. map (λ pair. (pair.name, pair.bytes.items)) n.pairs.items };
}

impl NamedBytes {
    /// No names. It takes no memory.
    pub fn new(alloc: Global) -> NamedBytes
        ensures empty { result ≡ [] }
    {
        NamedBytes {
            alloc,
            pairs: Vec::new(alloc),
        }
    }

    /// Puts bytes under a name, behind all others.
    ///
    /// # Errors
    /// `NoMemory`, and then all is as it was.
    pub fn add(&mut self, name: &str, bytes: &[u8]) -> Result<(), NoMemory>
        ensures ok { OnOk result (self.new ≡ self.old ++ (name.now, bytes.now) ∷ []) }
        ensures err { OnErr result (self.new ≡ self.old) }
    {
        let name = Word::of(self.alloc, name)?;
        let bytes = Vec::from_slice(self.alloc, bytes)?;
        match self.pairs.push(Named { name, bytes }) {
            Ok(()) => Ok(()),
            Err(_) => Err(NoMemory),
        }
    }

    /// The place of the first pair with a name.
    pub(crate) fn find(&self, name: &[u8]) -> Option<usize>
        ensures within { IfSome result (λ place. place < length self.now) }
        ensures found { IfSome result (λ place. bytes_of self.now name.now ≡ Some (slice_index_or self.now place ([], [])).1) }
        ensures none { IfNone result (bytes_of self.now name.now ≡ None) }
    {
        for (place, pair) in self.pairs.iter().enumerate() {
            if pair.name.bytes() == name {
                return Some(place);
            }
        }
        None
    }

    /// The bytes of the pair at a place.
    pub(crate) fn at(&self, place: usize) -> &[u8]
        requires within { place < length self.now }
        ensures bytes { result.now ≡ (slice_index_or self.now place ([], [])).1 }
    {
        self.pairs[place].bytes.as_slice()
    }
}
