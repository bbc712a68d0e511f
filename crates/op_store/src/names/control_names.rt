ghost use Rattle.std.specs.Prelude.{◌≡◌, ℕ, List, length, take, IfOk};
ghost use Rattle.op_logic.specs.Names.{IsTable};
ghost use Rattle.op_store.specs.Stored.{first_names};
ghost use Rattle.op_store.specs.inner.Converted.{AreControlNames};

use crate::names::control::{ARROW, CALL, COMMA, SEMICOLON};
use op_base::Memory;
use op_term::{Sym, Symbols};

/// The names of the control constructs of two parts, and of call/1.
#[derive(Clone, Copy)]
pub(crate) struct ControlNames {
    pub comma: Sym,
    pub semicolon: Sym,
    pub arrow: Sym,
    pub call: Sym,
}

/// Their numbers, which may be new ones.
pub(crate) fn known_control_names(symbols: &mut Symbols) -> Result<ControlNames, Memory>
    ensures names { IfOk result (λ k. AreControlNames symbols.new k) }
    ensures table { IfOk result (λ _. IsTable symbols.new) }
    ensures kept { take (length symbols.old) symbols.new ≡ symbols.old }
{
    let comma = symbols.intern(",")?;
    let semicolon = symbols.intern(";")?;
    let arrow = symbols.intern("->")?;
    let call = symbols.intern("call")?;
    Ok(ControlNames {
        comma,
        semicolon,
        arrow,
        call,
    })
}

/// Their numbers in every store.
pub(crate) fn first_control_names() -> ControlNames
    ensures { (names : List (List ℕ)) → take (length first_names) names ≡ first_names → AreControlNames names result }
{
    ControlNames {
        comma: COMMA,
        semicolon: SEMICOLON,
        arrow: ARROW,
        call: CALL,
    }
}
