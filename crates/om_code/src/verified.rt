//! Codes that keep the rules.
ghost use Rattle.std.specs.Prelude.{◌≡◌};
ghost use Rattle.om_code.specs.Verified.{IsVerified};

use crate::Code;
use std::marker::Model;

/// A code that has a text and keeps all rules of programs. Contracts see it as the code.
#[derive(Drop)]
pub struct Verified {
    code: Code,
}

impl Model for Verified {
    ghost use Rattle.om_code.specs.declared.code.Code.{Code};
    ghost use Rattle.om_code.specs.Verified.{IsVerified};

    ghost Value = { Code };

    ghost view = { λ v. v.code };

    ghost invariant = { λ v. IsVerified v.code };
}

impl Verified {
    /// A code that is known to be verified. Nothing is tried.
    pub fn of(code: Code) -> Verified
        requires { IsVerified code }
        ensures { result ≡ code }
    {
        Verified { code }
    }

    /// The code.
    pub fn code(&self) -> &Code
        ensures code { result.now ≡ self.now }
        ensures verified { IsVerified self.now }
    {
        &self.code
    }
}
