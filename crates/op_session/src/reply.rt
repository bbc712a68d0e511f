//! The parts of an answer's text.

ghost use Rattle.std.specs.Prelude.{◌≡◌, ◌<◌, ◌++◌, true, codes, length, OnOk};
ghost use Rattle.op_term.specs.Ops.{iso_table};
ghost use Rattle.op_logic.specs.Names.{named, HasNames};
ghost use Rattle.op_retrace.specs.Fed.{shows_event};
ghost use Rattle.op_cursor.specs.Seen.{seen};
ghost use Rattle.op_session.specs.Commands.{is_told as the_told, binding_line, binding_lines, line_of as the_line};
ghost use Rattle.op_session.specs.Commands.{Thrown, last_line};
ghost use Rattle.op_session.specs.inner.Standing.{event_of};

use op_base::Memory;
use op_cursor::Cursor;
use op_desk::Bytes;
use op_event::line_of;
use op_reader::Names;
use op_retrace::Feed;
use op_store::Store;
use op_term::{Builder, Ops, Tree, Whole};
use op_writer::write_cut;
use std::alloc::Global;

// Whether a variable's name is told in answers.
fn is_told(name: &str) -> bool
    ensures { result ≡ the_told name.now }
{
    let bytes = name.as_bytes();
    bytes.is_empty() || bytes[0] != b'_'
}

// Adds a line of a variable that nothing binds.
fn add_binding(
    alloc: Global,
    store: &Store,
    name: &str,
    variable: u64,
    text: &mut Bytes,
) -> Result<(), Memory>
    requires { store.now.table ≡ iso_table }
    ensures { OnOk result (text.new ≡ text.old ++ binding_line (name.now, variable)) }
{
    if !is_told(name) {
        return Ok(());
    }
    let mut builder = Builder::new(alloc);
    let root = builder.var(variable)?;
    let term = builder.finish(root);
    let whole = Whole::new(&term);
    text.append(name.as_bytes())?;
    text.append(b" = ")?;
    write_cut(
        alloc,
        store.ops(),
        store.symbols(),
        &whole,
        &whole.root(),
        699,
        true,
        text,
    )?;
    text.append(b"\n")
}

/// Adds a line for each variable whose name is told.
pub fn add_bindings(
    alloc: Global,
    store: &Store,
    names: &Names,
    text: &mut Bytes,
) -> Result<(), Memory>
    requires { store.now.table ≡ iso_table }
    ensures { OnOk result (text.new ≡ text.old ++ binding_lines names.now) }
{
    for i in 0..names.len() {
        add_binding(alloc, store, names.name(i), names.var(i), text)?;
    }
    Ok(())
}

/// Adds the line of the place where a cursor stands, which its feed shows.
pub fn add_place<F: Feed + Drop>(
    alloc: Global,
    cursor: &Cursor<F>,
    ops: &Ops,
    text: &mut Bytes,
) -> Result<(), Memory>
    requires there { (seen F.fed cursor.now).fed.place ≡ (seen F.fed cursor.now).place }
    requires shown { 0 < (seen F.fed cursor.now).place → shows_event (seen F.fed cursor.now).fed ≡ true }
    ensures { OnOk result (text.new ≡ text.old ++ the_line ops.now (event_of (seen F.fed cursor.now)) ++ codes "\n") }
{
    match cursor.event() {
        Some(event) => line_of(alloc, &event, ops, text)?,
        None => text.append(b"0 start")?,
    }
    text.append(b"\n")
}

/// Adds the last line of a query that throws this ball.
pub fn add_thrown<T: Tree>(
    alloc: Global,
    store: &Store,
    tree: &T,
    ball: &T::At,
    text: &mut Bytes,
) -> Result<(), Memory>
    requires operators { store.now.table ≡ iso_table }
    requires place { T.IsPlace tree.now ball.now }
    requires names { HasNames (length store.now.names) (T.term tree.now ball.now) }
    ensures { OnOk result (text.new ≡ text.old ++ last_line (Thrown (named store.now.names (T.term tree.now ball.now)))) }
{
    text.append(b"thrown ")?;
    write_cut(
        alloc,
        store.ops(),
        store.symbols(),
        tree,
        ball,
        1200,
        false,
        text,
    )?;
    text.append(b"\n")
}
