ghost use Rattle.std.specs.Prelude.{◌≡◌, ℕ, List, true, false, IfOk, MatchOption};
ghost use Rattle.std.specs.List.{list_all};
ghost use Rattle.table_columns.specs.Columns.{name_rules};
ghost use Rattle.table_columns.specs.Names.{is_name, is_name_byte, place_of};
ghost use Rattle.table_columns.specs.Read.{IsNewName, Reads};

use crate::kinds::NameKinds;
use geo_base::NoMemory;
use std::alloc::Global;
use std::marker::Model;
use std::str;

/// The name of a record, as of a point or of a candidate. Contracts see it as its bytes.
#[derive(Debug, Drop)]
pub struct Name {
    text: String,
}

impl Model for Name {
    ghost use Rattle.std.specs.Prelude.{List, ℕ};
    ghost use Rattle.std.specs.String.{string_bytes};

    ghost Value = { List ℕ };

    ghost view = { λ name. string_bytes name.text };
}

impl Name {
    /// A name of this text, which is one (`new_name`).
    pub fn new(alloc: Global, text: &str) -> Result<Name, NoMemory>
        requires { is_name text.now ≡ true }
        ensures { IfOk result (λ name. name ≡ text.now) }
    {
        let text = String::from_str(alloc, text)?;
        Ok(Name { text })
    }

    /// The bytes of its text.
    pub fn bytes(&self) -> &[u8]
        ensures { result.now ≡ self.now }
    {
        self.text.as_bytes()
    }
}

// Whether a byte may stand in a name.
fn is_name_byte(byte: u8) -> bool
    ensures { result ≡ is_name_byte byte }
{
    byte >= 0x20 && byte != 0x7F && byte != b',' && byte != b'"'
}

// Whether each byte may stand in a name.
fn has_name_bytes(text: &[u8]) -> bool
    ensures { result ≡ list_all is_name_byte text.now }
{
    text.iter().all(|byte| is_name_byte(*byte))
}

// The text of a name. None where the bytes are no name.
#[tactic(auto, using(crate::proofs::NameFacts::name_tests))]
fn name_text(bytes: &[u8]) -> Option<&str>
    ensures { MatchOption result (is_name bytes.now ≡ false) (λ text. (is_name bytes.now ≡ true) × (text.now ≡ bytes.now)) }
{
    if bytes.is_empty() || bytes.len() > 32 || !has_name_bytes(bytes) {
        return None;
    }
    match str::from_utf8(bytes) {
        Ok(text) => Some(text),
        Err(_) => None,
    }
}

impl<K: Copy> NameKinds<K> {
    /// The text of a new name: 1 to 32 bytes of UTF-8 without a comma, a double quote, a byte below
    /// 20 hexadecimal or the byte 7F. `found` is the place of the earlier record that has it, if one
    /// has. `name` where the bytes are no name, `twice` where an earlier record has the name.
    pub fn new_name(self, bytes: &[u8], found: Option<u32>) -> Result<&str, K>
        ensures { (names : List (List ℕ)) → found ≡ place_of bytes.now names → Reads (name_rules self bytes.now names) (λ name. IsNewName bytes.now names name.now) result }
    {
        match name_text(bytes) {
            None => Err(self.name),
            Some(name) => {
                if found.is_some() {
                    return Err(self.twice);
                }
                Ok(name)
            }
        }
    }
}
