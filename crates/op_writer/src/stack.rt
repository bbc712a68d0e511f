ghost use Rattle.std.specs.Prelude.{◌≡◌, ◌++◌, ◌∷◌, [], reverse, OnOk, if◌then◌else◌};
ghost use Rattle.op_writer.specs.declared.item.Item.TheVariants.{Lexeme as written};
ghost use Rattle.op_writer.specs.declared.item.Lexeme.TheVariants.{Sign as sign, Name as name_lexeme};

use crate::item::{Item, Lexeme};
use op_base::Memory;
use op_term::Sym;

/// Puts an item on a stack.
pub fn push<P: Copy>(stack: &mut Vec<Item<P>>, item: Item<P>) -> Result<(), Memory>
    ensures { OnOk result (reverse stack.new.items ≡ item ∷ reverse stack.old.items) }
{
    stack.push(item)?;
    Ok(())
}

/// Puts a sign on a stack.
pub fn push_sign<P: Copy>(stack: &mut Vec<Item<P>>, byte: u8) -> Result<(), Memory>
    ensures { OnOk result (reverse stack.new.items ≡ written (sign byte) ∷ reverse stack.old.items) }
{
    push(stack, Item::Lexeme(Lexeme::Sign(byte)))
}

/// Puts a sign on a stack, or nothing.
pub fn push_bracket<P: Copy>(
    stack: &mut Vec<Item<P>>,
    brackets: bool,
    byte: u8,
) -> Result<(), Memory>
    ensures { OnOk result (reverse stack.new.items
        ≡ (if brackets then written (sign byte) ∷ reverse stack.old.items else reverse stack.old.items)) }
{
    if brackets {
        return push_sign(stack, byte);
    }
    Ok(())
}
