ghost use Rattle.std.specs.Prelude.{◌≡◌, ◌+◌, ◌<◌, ◌≤◌, ◌↔◌, length, true, false, Err, IfOk, OnOk};
ghost use Rattle.op_logic.specs.Term.{size as node_count};
ghost use Rattle.op_logic.specs.Names.{named, HasNames};
ghost use Rattle.op_term.specs.Places.{term_at};
ghost use Rattle.op_moves.specs.Pattern.{tested, is_unbound, is_event};
ghost use Rattle.op_event.specs.View.{event_in};

use crate::fault::PatternFault;
use crate::matching;
use crate::own_names::with_own_names;
use op_base::Memory;
use op_event::EventView;
use op_term::{Fuel, Node, Symbols, Term, Tree, WalkFault, Whole, size};
use std::alloc::Global;
use std::marker::Model;

/// A pattern of events. A clause sees its term, with the names as texts.
#[derive(Drop)]
pub struct Pattern {
    alloc: Global,
    term: Term,
    names: Symbols,
}

impl Model for Pattern {
    ghost use Rattle.std.specs.Prelude.{List, ℕ, length};
    ghost use Rattle.std.specs.Coded.{coded_list, coded_ℕ};
    ghost use Rattle.op_logic.specs.Term.{Term as SpecTerm};
    ghost use Rattle.op_logic.specs.Names.{named, HasNames};
    ghost use Rattle.op_logic.specs.inner.Code.{coded_term};

    ghost Value = { SpecTerm (List ℕ) };

    ghost coded = { coded_term (coded_list coded_ℕ) };

    ghost view = { λ p. named p.names p.term };

    ghost invariant = { λ p. HasNames (length p.names) p.term };
}

impl Pattern {
    /// The pattern that a term is, whose names are in this table: a term of an event, event/6.
    pub fn of(alloc: Global, term: &Term, symbols: &Symbols) -> Result<Pattern, PatternFault>
        requires { HasNames (length symbols.now) term.now }
        ensures pattern { IfOk result (λ p. p ≡ named symbols.now term.now) }
        ensures event { OnOk result (is_event (named symbols.now term.now) ≡ true) }
        ensures unbound { (result ≡ Err PatternFault.Unbound) → is_unbound term.now ≡ true }
        ensures not_event { (result ≡ Err PatternFault.NotEvent)
            → (is_unbound term.now ≡ false) × (is_event (named symbols.now term.now) ≡ false) }
    {
        let whole = Whole::new(term);
        if is_variable(&whole) {
            return Err(PatternFault::Unbound);
        }
        if !is_event_term(&whole, symbols) {
            return Err(PatternFault::NotEvent);
        }
        let (term, names) = with_own_names(alloc, &whole, symbols)?;
        Ok(Pattern { alloc, term, names })
    }

    /// Whether the pattern accepts an event, at a step for each pair of terms that is taken. Where fewer are left, all of them are taken.
    /// Nothing is bound by it.
    pub fn accepts(&self, view: &EventView<'_>, fuel: &mut Fuel) -> Result<bool, WalkFault>
        ensures answer { IfOk result (λ b. b ≡ (tested self.now (event_in view.now)).yes) }
        ensures paid { OnOk result (fuel.old ≡ fuel.new + (tested self.now (event_in view.now)).cost) }
        ensures spent { result ≡ Err WalkFault.Spent → fuel.old < (tested self.now (event_in view.now)).cost }
        ensures empty { result ≡ Err WalkFault.Spent → fuel.new ≡ 0 }
        ensures falls { fuel.new ≤ fuel.old }
    {
        let whole = Whole::new(&self.term);
        matching::accepts(self.alloc, &whole, &self.names, view, fuel)
    }

    /// How many nodes the pattern has, at a step for each. Where fewer are left, all of them are taken.
    pub fn size(&self, fuel: &mut Fuel) -> Result<u64, WalkFault>
        ensures value { IfOk result (λ n. n ≡ node_count self.now) }
        ensures paid { OnOk result (fuel.old ≡ fuel.new + node_count self.now) }
        ensures spent { result ≡ Err WalkFault.Spent → fuel.old < node_count self.now }
        ensures empty { result ≡ Err WalkFault.Spent → fuel.new ≡ 0 }
        ensures falls { fuel.new ≤ fuel.old }
    {
        let whole = Whole::new(&self.term);
        size(self.alloc, &whole, &whole.root(), fuel)
    }
}

fn is_variable(whole: &Whole<'_>) -> bool
    requires { whole.now.root < length whole.now.terms }
    ensures { result ≡ is_unbound (term_at whole.now.terms whole.now.root) }
{
    match whole.node(&whole.root()) {
        Node::Var(_) => true,
        _ => false,
    }
}

fn is_event_term(whole: &Whole<'_>, symbols: &Symbols) -> bool
    requires there { whole.now.root < length whole.now.terms }
    requires names { HasNames (length symbols.now) (term_at whole.now.terms whole.now.root) }
    ensures { result ≡ is_event (named symbols.now (term_at whole.now.terms whole.now.root)) }
{
    match whole.node(&whole.root()) {
        Node::Struct(name, n) => symbols.name_of(name) == "event" && n == 6,
        Node::Var(_) | Node::Int(_) | Node::Atom(_) => false,
    }
}
