ghost use Rattle.std.specs.Prelude.{◌≡◌, ◌<◌, length};
ghost use Rattle.op_logic.specs.Names.{HasNames};
ghost use Rattle.op_bind.specs.State.{value_of};

use op_bind::{Bindings, Ref};
use op_term::Symbols;
use op_trace::Port;
use std::marker::Model;

/// An event with the bindings and the names of its moment. It borrows what it shows, so that none of that changes while the view is kept.
#[derive(Drop)]
pub struct EventView<'m> {
    chrono: u64,
    call: u64,
    parent: u64,
    depth: u64,
    port: Port,
    goal: &'m Ref,
    bindings: &'m Bindings,
    symbols: &'m Symbols,
}

impl<'m> Model for EventView<'m> {
    ghost use Rattle.std.specs.Coded.{codes};
    ghost use Rattle.op_logic.specs.inner.Code.{term_code};
    ghost use Rattle.op_event.specs.View.{Showing, IsShowing};

    ghost Value = { Showing };

    ghost coded = { Prim.hlevel (codes, term_code) };

    ghost view = { λ v. record {
      chrono = v.chrono;
      call = v.call;
      parent = v.parent;
      depth = v.depth;
      port = v.port;
      goal = v.goal.now;
      state = v.bindings.now;
      names = v.symbols.now;
    } };

    ghost invariant = { λ v. IsShowing (record {
      chrono = v.chrono;
      call = v.call;
      parent = v.parent;
      depth = v.depth;
      port = v.port;
      goal = v.goal.now;
      state = v.bindings.now;
      names = v.symbols.now;
    }) };
}

impl<'m> EventView<'m> {
    ghost use Rattle.op_event.specs.View.{event_in};

    /// A view of the event with this chronological number, call number of its box, parent, depth and port, whose goal is the value of a
    /// Ref in these bindings.
    pub fn new(
        chrono: u64,
        call: u64,
        parent: u64,
        depth: u64,
        port: Port,
        goal: &'m Ref,
        bindings: &'m Bindings,
        symbols: &'m Symbols,
    ) -> EventView<'m>
        requires there { goal.now < length bindings.now.terms }
        requires names { HasNames (length symbols.now) (value_of bindings.now goal.now) }
        ensures { result ≡ record {
          chrono = chrono;
          call = call;
          parent = parent;
          depth = depth;
          port = port;
          goal = goal.now;
          state = bindings.now;
          names = symbols.now;
        } }
    {
        EventView {
            chrono,
            call,
            parent,
            depth,
            port,
            goal,
            bindings,
            symbols,
        }
    }

    /// The place of the event among all events of the run, from 1.
    pub fn chrono(&self) -> u64
        ensures { result ≡ (event_in self.now).chrono }
    {
        self.chrono
    }

    /// The number of the box's call among all calls of the run, from 1.
    pub fn call(&self) -> u64
        ensures { result ≡ (event_in self.now).call }
    {
        self.call
    }

    /// The call number of the innermost box that was open at the call, or 0.
    pub fn parent(&self) -> u64
        ensures { result ≡ (event_in self.now).parent }
    {
        self.parent
    }

    /// One more than the number of boxes that were open at the call.
    pub fn depth(&self) -> u64
        ensures { result ≡ (event_in self.now).depth }
    {
        self.depth
    }

    /// The port at which the goal is seen.
    pub fn port(&self) -> Port
        ensures { result ≡ (event_in self.now).port }
    {
        self.port
    }

    /// The goal, whose value in the bindings the port shows.
    pub fn goal(&self) -> &'m Ref
        ensures goal { result.now ≡ self.now.goal }
        ensures there { result.now < length self.now.state.terms }
        ensures names { HasNames (length self.now.names) (value_of self.now.state result.now) }
    {
        self.goal
    }

    /// The bindings of this moment.
    pub fn bindings(&self) -> &'m Bindings
        ensures { result.now ≡ self.now.state }
    {
        self.bindings
    }

    /// The names of the run.
    pub fn symbols(&self) -> &'m Symbols
        ensures { result.now ≡ self.now.names }
    {
        self.symbols
    }
}
