//! Names of objects and of attributes.
ghost use Rattle.std.specs.Prelude.{◌≡◌, ◌↔◌, ◌⊎◌, List, ℕ, IfOk, IfErr, IsTrue, Err, false};
ghost use Rattle.std.specs.Prelude.{Some, bytes_eq, refl};
ghost use Rattle.std.specs.Ordering.{nat_cmp};
ghost use Rattle.std.specs.Cmp.{partial_equiv_from_equiv};
ghost use Rattle.std.specs.Cmp.Lexicographic.{slice_cmp, nat_list_eq_equiv, nat_list_cmp_total, texts_ties, texts_po};
ghost use Rattle.ec_words.specs.Names.{is_name};

use crate::limits::MAX_NAME;
use crate::{NoMemory, WordFault};
use std::alloc::Global;
use std::cmp::Ordering;
use std::marker::Model;

/// A name: 1 to 255 bytes from `!` to `~`. Names are ordered by their bytes. A contract sees these.
#[derive(Debug, Drop)]
pub struct Name {
    text: Vec<u8>,
}

impl Model for Name {
    ghost Value = { List ℕ };

    ghost view = { λ n. n.text.items };

    ghost invariant = { λ n. IsTrue (is_name n.text.items) };
}

impl Name {
    /// The name that a text is.
    pub fn read(alloc: Global, text: &[u8]) -> Result<Name, WordFault>
        ensures value { IfOk result (λ name. name ≡ text.now) }
        ensures bad_name { (result ≡ Err WordFault.BadName) ↔ (is_name text.now ≡ false) }
        ensures faults { IfErr result (λ fault. (fault ≡ WordFault.BadName) ⊎ (fault ≡ WordFault.NoMemory)) }
    {
        if !is_name_text(text) {
            return Err(WordFault::BadName);
        }
        let text = Vec::from_slice(alloc, text)?;
        Ok(Name { text })
    }

    /// The bytes of the name.
    pub fn as_slice(&self) -> &[u8]
        ensures value { result.now ≡ self.now }
        ensures is_name { IsTrue (is_name self.now) }
    {
        self.text.as_slice()
    }

    /// An equal name.
    pub fn copy(&self, alloc: Global) -> Result<Name, NoMemory>
        ensures { IfOk result (λ name. name ≡ self.now) }
    {
        let text = Vec::from_slice(alloc, self.text.as_slice())?;
        Ok(Name { text })
    }
}

fn is_name_text(text: &[u8]) -> bool
    ensures { result ≡ is_name text.now }
{
    1 <= text.len() && (text.len() <= MAX_NAME && text.iter().all(|b| b'!' <= *b && *b <= b'~'))
}

impl PartialEq for Name {
    ghost eq = { λ a b. bytes_eq a b };

    ghost laws = { partial_equiv_from_equiv nat_list_eq_equiv };

    fn eq(&self, other: &Name) -> bool {
        self.text.as_slice() == other.text.as_slice()
    }
}

impl Eq for Name {
    ghost laws = { nat_list_eq_equiv };
}

impl PartialOrd for Name {
    ghost partial_cmp = { λ a b. Some (slice_cmp nat_cmp a b) };

    ghost laws = { texts_po };

    fn partial_cmp(&self, other: &Name) -> Option<Ordering> {
        Some(self.cmp(other))
    }
}

impl Ord for Name {
    ghost cmp = { slice_cmp nat_cmp };

    ghost total = { nat_list_cmp_total };

    ghost matches_partial_cmp = { λ a b. refl };

    ghost matches_eq = { λ a b. texts_ties a b };

    fn cmp(&self, other: &Name) -> Ordering {
        self.text.as_slice().cmp(other.text.as_slice())
    }
}
