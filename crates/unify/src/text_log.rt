//! The texts that a pass has taken, which only clauses read.
ghost use Rattle.std.specs.Prelude.{◌≡◌};
ghost use Rattle.std.specs.Borrow.{ftrue};
ghost use Rattle.unify.specs.Taken.{Taken, nothing, taken_code};

use std::marker::Model;

/// The texts of inventories that came in pieces, for contracts alone: it takes no memory and no
/// time.
#[derive(Drop)]
pub struct TextLog {
    pub ghost taken: { Taken } by { taken_code },
}

impl Model for TextLog {
    ghost also_owns = { λ _. ftrue };
}

/// A call that succeeded: a piece; a piece, with how long a plan was before and the plan with what
/// was appended for it; or the end of a host.
#[derive(Clone, Copy)]
pub enum Call<'a> {
    Piece(&'a [u8]),
    Planned(&'a [u8], usize, &'a [u8]),
    End,
}

impl TextLog {
    ghost use Rattle.unify.specs.Noted.{noted};

    /// Nothing has come as yet.
    pub fn new() -> TextLog
        ensures { result.taken ≡ nothing }
    {
        TextLog {}
    }

    /// Notes a call.
    pub fn note(&mut self, _call: &Call<'_>)
        ensures { self.new.taken ≡ noted _call.now self.old.taken }
    {}
}
