//! What the accounts of a site go by besides the files of its hosts.

ghost use Rattle.std.specs.Prelude.{◌≡◌};

use idtext::Name;
use kept_accounts::UnownedNumbers;

/// What stays as it is on each host.
#[derive(Drop)]
pub struct KeepRules<'a> {
    /// The keep text, empty where there is none.
    pub text: Name<'a>,
    /// The numbers that files have, and no account of their host. They stay, where the text says
    /// that such numbers do, and count for nothing where it does not.
    pub unowned: UnownedNumbers<'a>,
}

impl<'a> KeepRules<'a> {
    /// This text, and these numbers. No cost.
    pub fn new(text: &'a [u8], unowned: UnownedNumbers<'a>) -> KeepRules<'a>
        ensures { result ≡ record { text = text.now; unowned = unowned.entry } }
    {
        KeepRules {
            text: Name::new(text),
            unowned,
        }
    }
}

/// What the accounts of a site go by besides the files of its hosts.
#[derive(Drop)]
pub struct SiteRules<'a> {
    /// Numbers that names are to have: a text, empty where there is none.
    pub pins: Name<'a>,
    /// What stays as it is on each host.
    pub keep: KeepRules<'a>,
}

impl<'a> SiteRules<'a> {
    /// This pins text, and what is to stay. No cost.
    pub fn new(pins: &'a [u8], keep: KeepRules<'a>) -> SiteRules<'a>
        ensures { result ≡ record { pins = pins.now; keep = keep.entry } }
    {
        SiteRules {
            pins: Name::new(pins),
            keep,
        }
    }
}
