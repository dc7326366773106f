// Names, looked up by spelling.
ghost use Rattle.std.specs.Prelude.{◌≡◌, ◌<◌, ◌++◌, [], ◌∷◌, length, OnErr, OnOk, IfSome};
ghost use Rattle.prem_syntax.specs.Breaches.{has_name};
ghost use Rattle.prem_names.specs.Numbers.{number_of, with_first};

use indexmap::IndexMap;
use std::alloc::{AllocError, Global};
use std::marker::Model;

/// Names in the order in which they came, as lists of bytes. A name may come more than once; the first one of its
/// spelling counts.
#[derive(Drop)]
pub struct Index<'a> {
    names: Vec<&'a [u8]>,
    /// The number of the first name of each spelling.
    firsts: IndexMap<&'a [u8], usize>,
}

impl<'a> Model for Index<'a> {
    ghost use Rattle.std.specs.Prelude.{List};
    ghost use Rattle.prem_syntax.specs.Syntax.{Text};
    ghost use Rattle.prem_names.specs.Numbers.{texts_in, AreFirsts};

    ghost Value = { List Text };

    ghost view = { λ i. texts_in i.names.items };

    ghost invariant = { λ i. AreFirsts i.firsts.entries (texts_in i.names.items) };
}

impl<'a> Index<'a> {
    /// No names.
    pub fn new(alloc: Global) -> Index<'a>
        ensures { result ≡ [] }
    {
        Index {
            names: Vec::new(alloc),
            firsts: IndexMap::new(alloc),
        }
    }

    /// The number of the first name of this spelling, if there is one.
    pub fn find(&self, name: &[u8]) -> Option<usize>
        ensures number { result ≡ number_of self.now name.now }
        ensures within { IfSome result (λ n. n < length self.now) }
    {
        self.firsts.get(name).copied()
    }

    /// Whether there is a name of this spelling.
    #[tactic(auto, using(crate::proofs::Firsts::has_number))]
    pub fn has(&self, name: &[u8]) -> bool
        ensures { result ≡ has_name self.now name.now }
    {
        self.find(name).is_some()
    }

    /// Puts a name behind the others. It fails only for want of memory, and then no name has come.
    pub fn push(&mut self, name: &'a [u8]) -> Result<(), AllocError>
        ensures ok { OnOk result (self.new ≡ self.old ++ name.now ∷ []) }
        ensures err { OnErr result (self.new ≡ self.old) }
    {
        self.names.reserve(1)?;
        note_first(&mut self.firsts, name, self.names.len())?;
        self.names.push_reserved(name);
        Ok(())
    }
}

/// Notes the number of a name, if it is the first one of its spelling.
fn note_first<'a>(
    firsts: &mut IndexMap<&'a [u8], usize>,
    name: &'a [u8],
    number: usize,
) -> Result<(), AllocError>
    ensures ok { OnOk result (firsts.new.entries ≡ with_first firsts.old.entries name.entry number) }
    ensures err { OnErr result (firsts.new.entries ≡ firsts.old.entries) }
{
    if firsts.get(name).is_none() {
        firsts.insert(name, number)?;
    }
    Ok(())
}
