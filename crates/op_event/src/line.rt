ghost use Rattle.std.specs.Prelude.{◌≡◌, ◌++◌, decimal, IfOk, OnOk, OnErr};
ghost use Rattle.op_event.specs.View.{event_in};
ghost use Rattle.op_event.specs.Line.{event_line, heading, port_word as the_word, space};

use crate::view::EventView;
use itoa::Buffer;
use op_base::Memory;
use op_desk::Bytes;
use op_term::Ops;
use op_trace::Port;
use op_writer::write_cut;
use std::alloc::Global;

/// Adds the line of an event: its chronological number, its box's call number and depth, the port and the goal, written with these
/// operators, without a newline. After want of memory `out` is unchanged.
pub fn line_of(
    alloc: Global,
    view: &EventView<'_>,
    ops: &Ops,
    out: &mut Bytes,
) -> Result<(), Memory>
    ensures ok { OnOk result (out.new ≡ out.old ++ event_line ops.now (event_in view.now)) }
    ensures err { OnErr result (out.new ≡ out.old) }
{
    let mut line = heading_of(alloc, view)?;
    write_cut(
        alloc,
        ops,
        view.symbols(),
        view.bindings(),
        view.goal(),
        1200,
        false,
        &mut line,
    )?;
    out.append(line.as_slice())
}

// What stands before the goal.
fn heading_of(alloc: Global, view: &EventView<'_>) -> Result<Bytes, Memory>
    ensures { IfOk result (λ line. line ≡ heading (event_in view.now)) }
{
    let mut line = Bytes::new(alloc);
    add_number(&mut line, view.chrono())?;
    add_number(&mut line, view.call())?;
    add_number(&mut line, view.depth())?;
    line.append(port_word(view.port()))?;
    line.append(b" ")?;
    Ok(line)
}

// A number and a space.
fn add_number(line: &mut Bytes, number: u64) -> Result<(), Memory>
    ensures { OnOk result (line.new ≡ line.old ++ decimal number ++ space) }
{
    let mut buffer = Buffer::new();
    line.append(buffer.format(number).as_bytes())?;
    line.append(b" ")
}

fn port_word(port: Port) -> &'static [u8]
    ensures { result.now ≡ the_word port }
{
    match port {
        Port::Call => b"call",
        Port::Exit => b"exit",
        Port::Redo => b"redo",
        Port::Fail => b"fail",
        Port::Exception => b"exception",
    }
}
