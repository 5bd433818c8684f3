ghost use Rattle.std.specs.Prelude.{◌≡◌, ◌+◌, ◌<◌, ◌^◌, [], ◌∷◌, ◌++◌, Some, length, slice_get, OnOk, OnErr, bytes_eq};
ghost use Rattle.geoplan.specs.CommandOf.{are_distinct};

use geo_base::NoMemory;
use std::alloc::Global;
use std::marker::Model;

/// The words of a command line, the program's name first. Contracts see a list of their bytes.
#[derive(Drop)]
pub struct Words {
    words: Vec<String>,
    alloc: Global,
}

impl Model for Words {
    ghost use Rattle.std.specs.Prelude.{ℕ, ◌≤◌, ◌^◌, List, length, map};
    ghost use Rattle.std.specs.String.{string_bytes};

    ghost Value = { List (List ℕ) };

    ghost view = { λ words. map string_bytes words.words.items };

    ghost invariant = { λ words. length words.words.items ≤ 2 ^ 31 };
}

impl Words {
    /// No words.
    pub fn new(alloc: Global) -> Words
        ensures { result ≡ [] }
    {
        Words {
            words: Vec::new(alloc),
            alloc,
        }
    }

    /// Adds a word at the end. Refused, the words are as before.
    pub fn add(&mut self, word: &str) -> Result<(), NoMemory>
        requires { length self.old < 2 ^ 31 }
        ensures added { OnOk result (self.new ≡ self.old ++ word.now ∷ []) }
        ensures refused { OnErr result (self.new ≡ self.old) }
    {
        let word = String::from_str(self.alloc, word)?;
        self.words.push(word)?;
        Ok(())
    }

    /// The number of words, the program's name among them.
    pub fn len(&self) -> u32
        ensures { result ≡ length self.now }
    {
        self.words.len() as u32
    }

    /// The word of a number, counted from 0: the program's name is the first.
    pub fn get(&self, k: u32) -> &str
        requires { k < length self.now }
        ensures { slice_get self.now k ≡ Some result.now }
    {
        self.words[k as usize].as_str()
    }
}

/// Whether two words are the same.
pub fn is_same(one: &str, other: &str) -> bool
    ensures { result ≡ bytes_eq one.now other.now }
{
    one.as_bytes() == other.as_bytes()
}

/// Whether four words differ from one another.
pub fn are_distinct(first: &str, second: &str, third: &str, last: &str) -> bool
    ensures { result ≡ are_distinct (first.now ∷ second.now ∷ third.now ∷ last.now ∷ []) }
{
    !(is_same(first, second) || is_same(first, third) || is_same(first, last))
        && !(is_same(second, third) || is_same(second, last))
        && !is_same(third, last)
}
