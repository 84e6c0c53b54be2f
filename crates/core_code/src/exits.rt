//! How code can be left: at its end, and by a return.
ghost use Rattle.std.specs.Prelude.{◌≡◌, map};
ghost use Rattle.core_code.specs.Exits.{exits_of};
ghost use Rattle.core_code.specs.Tree.{in_sequence, tree_of};

use crate::code::{Code, Op};

/// Whether code can come to its end, and whether it can come to a return.
#[derive(Clone, Copy)]
pub struct Exits {
    pub ends: bool,
    pub returns: bool,
}

impl Exits {
    ghost use Rattle.std.specs.Prelude.{◌≡◌};
    ghost use Rattle.core_code.specs.Exits.{exits_either, exits_of, exits_repeated, exits_then, op_exits};
    ghost use Rattle.core_code.specs.Tree.{Skip};

    /// Of no code at all.
    pub fn of_nothing() -> Exits
        ensures { result ≡ exits_of Skip }
    {
        Exits {
            ends: true,
            returns: false,
        }
    }

    /// Of one operation.
    pub fn of(op: Op) -> Exits
        ensures { result ≡ op_exits op }
    {
        Exits {
            ends: !matches!(op, Op::Ret | Op::Throw),
            returns: matches!(op, Op::Ret),
        }
    }

    /// Of this code and then the rest.
    pub fn then(self, rest: Exits) -> Exits
        ensures { result ≡ exits_then self rest }
    {
        Exits {
            ends: self.ends && rest.ends,
            returns: self.returns || (self.ends && rest.returns),
        }
    }

    /// Of this code or the other.
    pub fn either(self, other: Exits) -> Exits
        ensures { result ≡ exits_either self other }
    {
        Exits {
            ends: self.ends || other.ends,
            returns: self.returns || other.returns,
        }
    }

    /// Of a loop round this code.
    pub fn repeated(self) -> Exits
        ensures { result ≡ exits_repeated self }
    {
        Exits {
            ends: true,
            returns: self.returns,
        }
    }
}

/// How a piece of code can be left.
#[cycle(exiting)]
pub fn exits_of(code: &Code) -> Exits
    ensures { result ≡ exits_of (tree_of code.now) }
{
    match code {
        Code::Op(_, _, op) => Exits::of(*op),
        Code::Seq(codes) => exits_through(codes.as_slice()),
        Code::Choice(left, right) => {
            let on_left = exits_of(left);
            let on_right = exits_of(right);
            on_left.either(on_right)
        }
        Code::Loop(body) => exits_of(body).repeated(),
        Code::Sync(_, _, body) => exits_of(body),
    }
}

/// How pieces of code in sequence can be left.
#[cycle(exiting)]
pub fn exits_through(codes: &[Code]) -> Exits
    ensures { result ≡ exits_of (in_sequence (map tree_of codes.now)) }
{
    let mut exits = Exits::of_nothing();
    for code in codes {
        exits = exits.then(exits_of(code));
    }
    exits
}
