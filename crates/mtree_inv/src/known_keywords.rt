//! The keywords of an entry and what they gave, kept for the next.

use crate::defaults::Defaults;
use idtext::TextCode;
use std::alloc::Global;
use std::marker::Model;

/// The keywords of an entry, the defaults that were in force there, and what both give together.
/// Most entries of an inventory have the keywords of the one before: those are not read again.
/// Nothing rests on what is kept but time.
#[derive(Drop)]
pub(crate) struct KnownKeywords {
    is_known: bool,
    keywords: Vec<u8>,
    defaults: Defaults,
    now: Defaults,
}

impl Model for KnownKeywords {
    ghost use Rattle.std.specs.Prelude.{◌≡◌, true, Ok};
    ghost use Rattle.idtext.specs.Words.{words};
    ghost use Rattle.mtree_inv.specs.Machine.{effective};

    ghost Value = { Unit {0} };

    ghost view = { λ _. tt };

    ghost invariant = { λ k. k.is_known ≡ true
        → effective k.defaults (words k.keywords.items) ≡ Ok k.now };
}

impl KnownKeywords {
    ghost use Rattle.std.specs.Prelude.{◌≡◌, Ok, IfSome};
    ghost use Rattle.idtext.specs.Words.{words};
    ghost use Rattle.mtree_inv.specs.Machine.{effective};

    /// Nothing is known. Takes no memory.
    pub(crate) fn new(alloc: Global) -> Self {
        KnownKeywords {
            is_known: false,
            keywords: Vec::new(alloc),
            defaults: Defaults::none(),
            now: Defaults::none(),
        }
    }

    // What these keywords give, if they are known with these defaults.
    fn find(&self, defaults: &Defaults, keywords: &[u8]) -> Option<Defaults>
        ensures { IfSome result (λ now. effective defaults.now (words keywords.now) ≡ Ok now) }
    {
        let is_this = self.is_known
            && self.defaults == *defaults
            && self.keywords.as_slice() == keywords;
        if is_this { Some(self.now) } else { None }
    }

    // Keeps what these keywords give with these defaults, unless memory is refused.
    fn keep(&mut self, defaults: &Defaults, keywords: &[u8], now: Defaults)
        requires { effective defaults.now (words keywords.now) ≡ Ok now }
    {
        self.is_known = false;
        self.defaults = *defaults;
        self.now = now;
        self.keywords.clear();
        self.is_known = self.keywords.extend_from_slice(keywords).is_ok();
    }

    /// The keywords in force at an entry: the defaults with the entry's own values in their place.
    pub(crate) fn in_force(
        &mut self,
        defaults: &Defaults,
        keywords: &[u8],
    ) -> Result<Defaults, TextCode>
        ensures { result ≡ effective defaults.now (words keywords.now) }
    {
        if let Some(now) = self.find(defaults, keywords) {
            return Ok(now);
        }
        let now = defaults.with_own(keywords)?;
        self.keep(defaults, keywords, now);
        Ok(now)
    }
}
