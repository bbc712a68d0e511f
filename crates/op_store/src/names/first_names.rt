ghost use Rattle.std.specs.Prelude.{◌≡◌, ◌∷◌, ◌++◌, [], map, IfOk, OnOk};
ghost use Rattle.op_logic.specs.Names.{IsTable, name_at};
ghost use Rattle.op_store.specs.Stored.{control_names, builtin_names, error_names, first_names};

use crate::names::control::{
    ARROW, CALL, CALLABLE, CATCH, COMMA, CUT, ERROR, EXISTENCE_ERROR, FAIL, FALSE, HALT,
    INSTANTIATION_ERROR, INTEGER, NOT, ONCE, OPIUM, PROCEDURE, SEMICOLON, SLASH, THROW, TRUE,
    TYPE_ERROR,
};
use op_base::Memory;
use op_term::Symbols;
use std::alloc::Global;

fn add_control_names(symbols: &mut Symbols) -> Result<(), Memory>
    requires { symbols.old ≡ [] }
    ensures { OnOk result (symbols.new ≡ control_names) }
{
    symbols.intern("true")?;
    symbols.intern("fail")?;
    symbols.intern("false")?;
    symbols.intern(",")?;
    symbols.intern(";")?;
    symbols.intern("->")?;
    symbols.intern("!")?;
    symbols.intern("call")?;
    Ok(())
}

fn add_builtin_names(symbols: &mut Symbols) -> Result<(), Memory>
    requires { symbols.old ≡ control_names }
    ensures { OnOk result (symbols.new ≡ control_names ++ builtin_names) }
{
    symbols.intern("once")?;
    symbols.intern("\\+")?;
    symbols.intern("throw")?;
    symbols.intern("halt")?;
    symbols.intern("catch")?;
    Ok(())
}

fn add_error_names(symbols: &mut Symbols) -> Result<(), Memory>
    requires { symbols.old ≡ control_names ++ builtin_names }
    ensures names { OnOk result (symbols.new ≡ first_names) }
    ensures table { OnOk result (IsTable symbols.new) }
{
    symbols.intern("error")?;
    symbols.intern("opium")?;
    symbols.intern("instantiation_error")?;
    symbols.intern("type_error")?;
    symbols.intern("callable")?;
    symbols.intern("integer")?;
    symbols.intern("existence_error")?;
    symbols.intern("procedure")?;
    symbols.intern("/")?;
    Ok(())
}

/// The names of a store at first: those of the control constructs, of the builtins of control, and of errors.
pub(crate) fn first_symbols(alloc: Global) -> Result<Symbols, Memory>
    ensures names { IfOk result (λ s. s ≡ first_names) }
    ensures table { IfOk result (λ s. IsTable s) }
    ensures control { map (λ s. name_at first_names s.0) (TRUE ∷ FAIL ∷ FALSE ∷ COMMA ∷ SEMICOLON ∷ ARROW ∷ CUT ∷ CALL ∷ [])
        ≡ control_names }
    ensures builtins { map (λ s. name_at first_names s.0) (ONCE ∷ NOT ∷ THROW ∷ HALT ∷ CATCH ∷ []) ≡ builtin_names }
    ensures errors { map (λ s. name_at first_names s.0) (ERROR ∷ OPIUM ∷ INSTANTIATION_ERROR ∷ TYPE_ERROR ∷ CALLABLE ∷ INTEGER
        ∷ EXISTENCE_ERROR ∷ PROCEDURE ∷ SLASH ∷ []) ≡ error_names }
{
    let mut symbols = Symbols::new(alloc);
    add_control_names(&mut symbols)?;
    add_builtin_names(&mut symbols)?;
    add_error_names(&mut symbols)?;
    Ok(symbols)
}
