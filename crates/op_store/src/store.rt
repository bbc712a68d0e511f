ghost use Rattle.std.specs.Prelude.{◌≡◌, ◌≢◌, ◌<◌, ℕ, [], length, take, map, option_map, Some, None, Ok, Err, IfOk, IfErr, IfSome, OnOk};
ghost use Rattle.std.specs.Prelude.{OnErr, is_some, All};
ghost use Rattle.op_logic.specs.Names.{IsTable, HasNames, name_at, named, with_name};
ghost use Rattle.op_reader.specs.Reading.{reading_of};
ghost use Rattle.op_reader.specs.Passes.{Tells, HasKnownNames};
ghost use Rattle.op_store.specs.Directives.{made_dynamic};
ghost use Rattle.op_logic.specs.Term.{IsWithin, Term as SpecTerm};
ghost use Rattle.op_store.specs.Counted.{variable_count};
ghost use Rattle.op_trace.specs.Body.{converted};
ghost use Rattle.op_store.specs.Clauses.{with_parts};
ghost use Rattle.op_store.specs.inner.Parts.{body_text, body_variables};
ghost use Rattle.op_term.specs.Ops.{set_in};
ghost use Rattle.op_term.specs.declared.ops.OpFault.TheVariants.{Memory as want_of_memory};
ghost use Rattle.op_trace.specs.Database.{procedure_in, clauses_of_database, procedure_of, indicator_of_term};
ghost use Rattle.op_store.specs.Load.{goal_of, command_of, load_text, load_from};
ghost use Rattle.op_store.specs.Locked.{is_locked as the_locked};
ghost use Rattle.op_store.specs.NumberedProcedures.{numbered_procedure_in, indicator_named, clause_named, pi_of, IsNumberedClause};

use crate::borrower::Borrower;
use crate::goals::command::read_command;
use crate::goals::command_fault::CommandFault;
use crate::goals::goal::Goal;
use crate::goals::goal_text::read_goal;
use crate::loading::clause_parts::{clause_body, clause_variables, own_term, procedure_of};
use crate::loading::load::load_all;
use crate::loading::load_fault::{LoadFault, LoadFaultKind};
use crate::loading::term_fault::TermFault;
use crate::names::builtins::is_locked_name;
use crate::names::first_names::first_symbols;
use crate::names::locked::Locked;
use crate::procedures::pi::Pi;
use crate::procedures::snapshot::Snapshot;
use crate::procedures::table::Procedures;
use op_base::Memory;
use op_bind::Clause;
use op_reader::{DoubleQuotes, ReadFault, Reading, read_term};
use op_term::{OpFault, OpKind, Ops, Sym, Symbols, Term, Tree};
use op_trace::Flags;
use std::alloc::Global;
use std::marker::Model;

/// A program as it stands: its names, operators, flags and procedures. A clause sees them over the numbers of the names; `database_of` says
/// what they are.
#[derive(Drop)]
pub struct Store {
    alloc: Global,
    locked: Locked,
    symbols: Symbols,
    ops: Ops,
    flags: Flags,
    procedures: Procedures,
    next: u64,
}

impl Model for Store {
    ghost use Rattle.std.specs.Coded.{codes};
    ghost use Rattle.op_logic.specs.inner.Code.{term_code};
    ghost use Rattle.op_store.specs.Stored.{Stored, IsSound};

    ghost Value = { Stored };

    ghost coded = { Prim.hlevel (codes, term_code) };

    ghost view = { λ s.
        record { locked = s.locked; names = s.symbols; table = s.ops; flags = s.flags; procedures = s.procedures; next = s.next } };

    ghost invariant = { λ s. IsSound
        (record { locked = s.locked; names = s.symbols; table = s.ops; flags = s.flags; procedures = s.procedures; next = s.next }) };
}

impl Store {
    ghost use Rattle.op_store.specs.Queries.{TellsGoal, TellsCommand, TellsLoad, IsSoundGoal, IsSoundFault, IsSoundLoadFault};
    ghost use Rattle.op_store.specs.inner.Told.{TellsTerm, with_names};
    ghost use Rattle.op_store.specs.Stored.{Stored, database_of, first_names, new_store, with_numbered_clause, numbered_clauses};
    ghost use Rattle.op_store.specs.Stored.{is_dynamic_procedure, IsSound};

    /// A store without clauses, with the operators of the standard and the names that come first.
    pub fn new(alloc: Global, locked: Locked) -> Result<Store, Memory>
        ensures { IfOk result (λ s. s ≡ new_store locked) }
    {
        Ok(Store {
            alloc,
            locked,
            symbols: first_symbols(alloc)?,
            ops: Ops::iso(alloc)?,
            flags: Flags {
                quotes: DoubleQuotes::Codes,
                unknown_fails: false,
            },
            procedures: Procedures::new(alloc),
            next: 0,
        })
    }

    /// An equal store. It takes time linear in the numbers of names, operators and procedures; clauses are shared.
    pub fn copy(&self) -> Result<Store, Memory>
        ensures { IfOk result (λ s. s ≡ self.now) }
    {
        Ok(Store {
            alloc: self.alloc,
            locked: self.locked,
            symbols: self.symbols.copy()?,
            ops: self.ops.copy()?,
            flags: self.flags,
            procedures: self.procedures.copy()?,
            next: self.next,
        })
    }

    /// The names.
    pub fn symbols(&self) -> &Symbols
        ensures names { result.now ≡ self.now.names }
        ensures begins { take (length first_names) self.now.names ≡ first_names }
    {
        &self.symbols
    }

    /// A name's number, as `Symbols::intern` gives it.
    pub fn intern(&mut self, name: &str) -> Result<Sym, Memory>
        ensures within { IfOk result (λ s. s.0 < length self.new.names) }
        ensures named { IfOk result (λ s. name_at self.new.names s.0 ≡ name.now) }
        ensures exact { OnOk result (self.new ≡ record self.old { names = with_name self.old.names name.now }) }
        ensures kept { self.new ≡ record self.old { names = self.new.names } }
        ensures names { take (length self.old.names) self.new.names ≡ self.old.names }
        ensures err { OnErr result (self.new ≡ self.old) }
    {
        let sym = self.symbols.intern(name);
        let _count = self.symbols.count();
        sym
    }

    /// Lends the names, to which names may join.
    pub fn lend<B: Borrower>(&mut self, borrower: B) -> B::Out
        requires { B.wants borrower self.old.names }
        ensures makes { B.makes borrower self.old.names self.new.names result }
        ensures kept { self.new ≡ record self.old { names = self.new.names } }
        ensures names { take (length self.old.names) self.new.names ≡ self.old.names }
        ensures world { database_of self.new ≡ database_of self.old }
    {
        let answer = borrower.borrow(&mut self.symbols);
        let _count = self.symbols.count();
        answer
    }

    /// The operators.
    pub fn ops(&self) -> &Ops
        ensures { result.now ≡ self.now.table }
    {
        &self.ops
    }

    /// Sets an operator, or removes it by priority 0, as `Ops::set` does.
    pub fn set_op(&mut self, priority: i64, kind: OpKind, name: &str) -> Result<(), OpFault>
        ensures ok { OnOk result (set_in self.old.table priority kind name.now ≡ Ok self.new.table) }
        ensures kept { self.new ≡ record self.old { table = self.new.table } }
        ensures refused { IfErr result (λ e. e ≢ want_of_memory → set_in self.old.table priority kind name.now ≡ Err e) }
        ensures err { OnErr result (self.new ≡ self.old) }
    {
        self.ops.set(priority, kind, name)
    }

    /// The flags.
    pub fn flags(&self) -> Flags
        ensures { result ≡ self.now.flags }
    {
        self.flags
    }

    /// Sets the flags.
    pub fn set_flags(&mut self, flags: Flags)
        ensures { self.new ≡ record self.old { flags = flags } }
    {
        self.flags = flags;
    }

    /// The clauses of a procedure at this moment, or None where there is no such procedure. It takes constant time.
    pub fn snapshot(&self, pi: Pi) -> Result<Option<Snapshot>, Memory>
        ensures clauses { IfOk result (λ o. o ≡ option_map (λ p. p.clauses) (numbered_procedure_in self.now.procedures pi)) }
        ensures world { IfOk result (λ o. option_map (map (clause_named self.now.names)) o
            ≡ option_map (λ p. p.clauses) (procedure_in (database_of self.now).procedures (indicator_named self.now.names pi))) }
        ensures sound { IfOk result (λ o. IfSome o (All (λ r. IsNumberedClause (length self.now.names) pi r))) }
        ensures procedure { IfOk result (λ o. (g : SpecTerm ℕ) → pi_of g ≡ Some pi
            → option_map (λ p. p.clauses) (procedure_of (database_of self.now) (named self.now.names g))
            ≡ option_map (map (clause_named self.now.names)) o) }
    {
        let _names = self.symbols.count();
        let _procedures = self.procedures.len();
        match self.procedures.find(pi) {
            Some(procedure) => Ok(Some(procedure.clauses.copy()?)),
            None => Ok(None),
        }
    }

    /// All clauses at this moment, procedure by procedure in order of first sight. It takes time linear in their number.
    pub fn all_clauses(&self) -> Result<Snapshot, Memory>
        ensures clauses { IfOk result (λ all. all ≡ numbered_clauses self.now) }
        ensures world { IfOk result (λ all. map (clause_named self.now.names) all ≡ clauses_of_database (database_of self.now)) }
        ensures sound { IsSound self.now }
    {
        self.procedures.all_clauses()
    }

    /// Whether there is a procedure, with clauses or without.
    pub fn has_procedure(&self, pi: Pi) -> bool
        ensures { result ≡ is_some (procedure_in (database_of self.now).procedures (indicator_named self.now.names pi)) }
    {
        self.procedures.find(pi).is_some()
    }

    /// Whether the program may change a procedure.
    pub fn is_dynamic(&self, pi: Pi) -> bool
        ensures { result ≡ is_dynamic_procedure (procedure_in (database_of self.now).procedures (indicator_named self.now.names pi)) }
    {
        let _names = self.symbols.count();
        match self.procedures.find(pi) {
            Some(procedure) => procedure.dynamic,
            None => false,
        }
    }

    /// Whether no clause may be for a procedure.
    pub fn is_locked(&self, pi: Pi) -> bool
        requires { pi.name.0 < length self.now.names }
        ensures { result ≡ the_locked self.now.locked (indicator_named self.now.names pi) }
    {
        is_locked_name(self.locked, self.symbols.name_of(pi.name), pi.arity)
    }

    /// Loads a text: its clauses join their procedures and its directives are carried out, term by term, each read with the operators
    /// and flags of that moment. At the first fault it stops, and what stood before the refused term stays. After a want of memory the
    /// store is as after some of the first terms. Names that were new stay.
    pub fn load(&mut self, text: &[u8]) -> Result<(), LoadFault>
        ensures tells { TellsLoad self.new result (load_text self.old.locked (database_of self.old) text.now) }
        ensures stands { (n : ℕ) × (database_of self.new ≡ (load_from n self.old.locked (database_of self.old) 1 text.now).world) }
        ensures sound { IfErr result (IsSoundLoadFault (length self.new.names)) }
        ensures names { take (length self.old.names) self.new.names ≡ self.old.names }
        ensures locked { self.new.locked ≡ self.old.locked }
    {
        load_all(self.alloc, self, text)
    }

    /// Reads a goal, with a full stop of its own on a line behind it, and converts it. It is refused for syntax, for what stands behind
    /// it and for its body alone. Names that were new stay, also after a refusal.
    pub fn goal(&mut self, text: &[u8]) -> Result<Goal, LoadFault>
        ensures tells { TellsGoal self.new.names result (goal_of self.old.table self.old.flags.quotes text.now) }
        ensures sound { IfOk result (IsSoundGoal (length self.new.names)) }
        ensures kept { self.new ≡ record self.old { names = self.new.names } }
        ensures names { take (length self.old.names) self.new.names ≡ self.old.names }
        ensures world { database_of self.new ≡ database_of self.old }
    {
        let goal = read_goal(self.alloc, &self.ops, self.flags, &mut self.symbols, text);
        let _count = self.symbols.count();
        goal
    }

    /// Reads a command and converts it. Names that were new stay, also after a refusal.
    pub fn command(&mut self, text: &[u8]) -> Result<Goal, CommandFault>
        ensures tells { TellsCommand self.new.names result (command_of self.old.table self.old.flags.quotes text.now) }
        ensures sound { IfOk result (IsSoundGoal (length self.new.names)) }
        ensures refused { IfErr result (IsSoundFault (length self.new.names)) }
        ensures kept { self.new ≡ record self.old { names = self.new.names } }
        ensures names { take (length self.old.names) self.new.names ≡ self.old.names }
        ensures world { database_of self.new ≡ database_of self.old }
    {
        let goal = read_command(self.alloc, &self.ops, self.flags, &mut self.symbols, text);
        let _count = self.symbols.count();
        goal
    }

    // Adds a clause at the end of its procedure, under the next number.
    pub(crate) fn add(&mut self, pi: Pi, head: Term, body: Term, vars: u64) -> Result<(), Memory>
        requires { IsNumberedClause (length self.old.names) pi (record { id = self.old.next; head = head; body = body; vars = vars }) }
        ensures ok { OnOk result (self.new ≡ with_numbered_clause self.old pi
            (record { id = self.old.next; head = head; body = body; vars = vars })) }
        ensures err { OnErr result (self.new ≡ self.old) }
    {
        let id = self.next;
        let next = id.checked_add(1).ok_or(Memory)?;
        let clause = Clause {
            id,
            head,
            body,
            vars,
        };
        self.procedures.add(pi, clause)?;
        self.next = next;
        Ok(())
    }

    // The body of a clause, or None where the term stands for no body. Names that were new stay.
    fn body_term<T: Tree>(&mut self, tree: &T, body: Option<T::At>) -> Result<Option<Term>, Memory>
        requires place { IfSome body (λ b. T.IsPlace tree.now b) }
        requires names { IfSome body (λ b. HasNames (length self.old.names) (T.term tree.now b)) }
        ensures body { IfOk result (λ o. option_map (named self.new.names) o
            ≡ (converted [] (body_text (λ p. named self.new.names (T.term tree.now p)) body)).body) }
        ensures has { IfOk result (λ o. IfSome o (HasNames (length self.new.names))) }
        ensures within { IfOk result (λ o. (n : ℕ) → IfSome body (λ b. IsWithin n (T.term tree.now b)) → IfSome o (IsWithin n)) }
        ensures kept { self.new ≡ with_names self.old self.new.names }
        ensures names { take (length self.old.names) self.new.names ≡ self.old.names }
        ensures world { database_of self.new ≡ database_of self.old }
    {
        let made = clause_body(self.alloc, &mut self.symbols, tree, body);
        let _count = self.symbols.count();
        made
    }

    /// Reads the first term of some bytes. Names that were new stay.
    pub(crate) fn read(&mut self, bytes: &[u8]) -> Result<Reading, ReadFault>
        ensures tells { Tells self.new.names result (reading_of self.old.table self.old.flags.quotes bytes.now) }
        ensures known { IfOk result (HasKnownNames (length self.new.names)) }
        ensures kept { self.new ≡ with_names self.old self.new.names }
        ensures names { take (length self.old.names) self.new.names ≡ self.old.names }
        ensures world { database_of self.new ≡ database_of self.old }
    {
        let quotes = self.flags.quotes;
        let reading = read_term(self.alloc, &self.ops, quotes, &mut self.symbols, bytes);
        let _count = self.symbols.count();
        reading
    }

    /// How many procedures there are.
    pub(crate) fn procedure_count(&self) -> u64
        ensures { result ≡ length self.now.procedures }
    {
        self.procedures.len()
    }

    /// Forgets the procedures that were seen last, but for so many.
    pub(crate) fn forget_procedures(&mut self, count: u64)
        ensures { self.new ≡ record self.old { procedures = take count self.old.procedures } }
    {
        self.procedures.truncate(count);
    }

    /// Makes a procedure dynamic, which it stays.
    pub(crate) fn make_dynamic(&mut self, pi: Pi) -> Result<(), TermFault>
        requires { pi.name.0 < length self.old.names }
        ensures tells { TellsTerm self.new result
            (made_dynamic self.old.locked (database_of self.old) (indicator_named self.old.names pi)) }
        ensures kept { self.new ≡ record self.old { procedures = self.new.procedures } }
        ensures front { take (length self.old.procedures) self.new.procedures ≡ self.old.procedures }
        ensures err { OnErr result (self.new ≡ self.old) }
    {
        let locked = self.is_locked(pi);
        if locked {
            return Err(TermFault::Refused(LoadFaultKind::Locked(pi)));
        }
        match self.procedures.dynamic(pi) {
            Some(true) => Ok(()),
            Some(false) => Err(TermFault::Refused(LoadFaultKind::Directive)),
            None => Ok(self.procedures.make_dynamic(pi)?),
        }
    }

    /// Sets an operator, as `set_op` does.
    pub(crate) fn set_operator(
        &mut self,
        priority: i64,
        kind: OpKind,
        name: Sym,
    ) -> Result<(), OpFault>
        requires { name.0 < length self.old.names }
        ensures ok { OnOk result (set_in self.old.table priority kind (name_at self.old.names name.0) ≡ Ok self.new.table) }
        ensures kept { self.new ≡ record self.old { table = self.new.table } }
        ensures refused { IfErr result (λ e. e ≢ want_of_memory → set_in self.old.table priority kind (name_at self.old.names name.0)
            ≡ Err e) }
        ensures err { OnErr result (self.new ≡ self.old) }
    {
        self.ops.set(priority, kind, self.symbols.name_of(name))
    }

    /// Puts another table of operators in place.
    pub(crate) fn put_ops(&mut self, ops: Ops)
        ensures { self.new ≡ record self.old { table = ops } }
    {
        let _ = ops.prefix("");
        self.ops = ops;
    }

    /// Adds the clause of a head and a body, which a fact hasn't. It is refused for its head, then its body, then its name.
    pub(crate) fn add_clause<T: Tree>(
        &mut self,
        tree: &T,
        head: &T::At,
        body: Option<T::At>,
    ) -> Result<(), TermFault>
        requires head { T.IsPlace tree.now head.now }
        requires head_names { HasNames (length self.old.names) (T.term tree.now head.now) }
        requires body { IfSome body (λ b. T.IsPlace tree.now b) }
        requires body_names { IfSome body (λ b. HasNames (length self.old.names) (T.term tree.now b)) }
        ensures tells { TellsTerm self.new result
            (with_parts self.old.locked (database_of self.old) (named self.new.names (T.term tree.now head.now))
            (body_variables (λ p. variable_count (T.term tree.now p)) head.now body)
            (indicator_of_term (named self.new.names (T.term tree.now head.now)))
            (converted [] (body_text (λ p. named self.new.names (T.term tree.now p)) body)).body) }
        ensures names { take (length self.old.names) self.new.names ≡ self.old.names }
        ensures locked { self.new.locked ≡ self.old.locked }
        ensures err { OnErr result (self.new ≡ with_names self.old self.new.names) }
        ensures world { OnErr result (database_of self.new ≡ database_of self.old) }
    {
        let Some(pi) = procedure_of(tree, head) else {
            return Err(TermFault::Refused(LoadFaultKind::Head));
        };
        let body_term = match self.body_term(tree, body)? {
            Some(term) => term,
            None => return Err(TermFault::Refused(LoadFaultKind::Body)),
        };
        if self.is_locked(pi) {
            return Err(TermFault::Refused(LoadFaultKind::Locked(pi)));
        }
        let vars = clause_variables(self.alloc, tree, head, body)?;
        let head_term = own_term(self.alloc, tree, head)?;
        self.add(pi, head_term, body_term, vars)?;
        Ok(())
    }
}
