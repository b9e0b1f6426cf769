//! A ledger that only clauses read, for files that are real.
ghost use Rattle.std.specs.Prelude.{◌≡◌};
ghost use Rattle.std.specs.Borrow.{ftrue};
ghost use Rattle.unify_merge.specs.Ledger.{Ledger, nothing};
ghost use Rattle.unify_merge.specs.LedgerCode.{ledger_code};

use std::marker::Model;

/// What was read and written, for contracts alone: it takes no memory and no time.
#[derive(Drop)]
pub struct Log {
    pub ghost ledger: { Ledger } by { ledger_code },
}

impl Model for Log {
    ghost also_owns = { λ _. ftrue };
}

/// A call that succeeded, with what it was given, or gave.
#[derive(Clone, Copy)]
pub enum Call<'a> {
    /// `open`, of the inventory of the host with this index.
    Open(usize),
    /// `piece`, with the bytes that it gave.
    Piece(&'a [u8]),
    /// `clear`.
    Clear,
    /// `begin`, of a file of this name.
    Begin(&'a [u8]),
    /// `append`, of these bytes.
    Append(&'a [u8]),
    /// `finish`.
    Finish,
    /// `seal`, of a file of this name and this text.
    Seal(&'a [u8], &'a [u8]),
}

impl Log {
    ghost use Rattle.unify_merge.specs.Noted.{noted};

    /// Nothing was read or written as yet.
    pub fn new() -> Log
        ensures { result.ledger ≡ nothing }
    {
        Log {}
    }

    /// Notes a call.
    pub fn note(&mut self, _call: &Call<'_>)
        ensures { self.new.ledger ≡ noted _call.now self.old.ledger }
    {}
}
