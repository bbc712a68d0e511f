ghost use Rattle.std.specs.Prelude.{◌≡◌, ◌≢◌, IfOk, IfErr, OnOk, OnErr, Ok, Err, fold};
ghost use Rattle.op_term.specs.Ops.{prefix_in, infix_in, postfix_in, is_prefix as prefix_kind, is_postfix as postfix_kind};
ghost use Rattle.op_term.specs.Ops.{is_infix as infix_kind, is_y_left as y_left, is_y_right as y_right, changed as the_changed};
ghost use Rattle.op_term.specs.Ops.{is_reserved as the_reserved, clashes as the_clash, with_op, iso_table, set_in, IsTable};
ghost use Rattle.op_term.specs.Ops.{with_groups, clause_operators, control_operators, comparison_operators, arithmetic_operators};
ghost use Rattle.op_term.specs.declared.ops.OpFault.TheVariants.{Memory as want_of_memory};

use crate::meanings::MeaningMap;
use op_base::Memory;
use std::alloc::Global;
use std::marker::Model;

/// The kind of an operator: which side has an operand, and whether that one may have the operator's own priority (`y`) or must
/// have a lower one (`x`). ISO/IEC 13211-1, 6.3.4.
#[derive(Clone, Copy, Debug, PartialEq, Eq)]
pub enum OpKind {
    Xfx,
    Xfy,
    Yfx,
    Fy,
    Fx,
    Xf,
    Yf,
}

impl OpKind {
    /// Whether it stands before its operand.
    pub fn is_prefix(self) -> bool
        ensures { result ≡ prefix_kind self }
    {
        match self {
            OpKind::Fy | OpKind::Fx => true,
            _ => false,
        }
    }

    /// Whether it stands behind its operand.
    pub fn is_postfix(self) -> bool
        ensures { result ≡ postfix_kind self }
    {
        match self {
            OpKind::Yf | OpKind::Xf => true,
            _ => false,
        }
    }

    /// Whether it stands between two operands.
    pub fn is_infix(self) -> bool
        ensures { result ≡ infix_kind self }
    {
        match self {
            OpKind::Xfx | OpKind::Xfy | OpKind::Yfx => true,
            _ => false,
        }
    }

    /// Whether its left operand may have its own priority.
    pub fn is_y_left(self) -> bool
        ensures { result ≡ y_left self }
    {
        match self {
            OpKind::Yfx | OpKind::Yf => true,
            _ => false,
        }
    }

    /// Whether its right operand may have its own priority.
    pub fn is_y_right(self) -> bool
        ensures { result ≡ y_right self }
    {
        match self {
            OpKind::Xfy | OpKind::Fy => true,
            _ => false,
        }
    }
}

/// Why an operator was not set.
#[derive(Clone, Copy, Debug, PartialEq, Eq)]
pub enum OpFault {
    Memory,
    /// The priority isn't from 0 to 1200.
    Priority,
    /// The name is the comma.
    Comma,
    /// The name is `[]`, `{}` or the bar.
    Reserved,
    /// A name would be both infix and postfix.
    Clash,
}

impl From<Memory> for OpFault {
    ghost from_gives = { λ _ e. e ≡ want_of_memory };

    fn from(_e: Memory) -> OpFault {
        OpFault::Memory
    }
}

/// An operator: its priority, from 1 to 1200, and its kind.
#[derive(Clone, Copy, Debug, PartialEq, Eq)]
pub struct Meaning {
    pub priority: u32,
    pub kind: OpKind,
}

/// What a name means as a prefix, an infix and a postfix operator.
#[derive(Clone, Copy)]
pub struct Meanings {
    pub as_prefix: Option<Meaning>,
    pub as_infix: Option<Meaning>,
    pub as_postfix: Option<Meaning>,
}

impl Meanings {
    /// With another meaning in the class of a kind.
    pub(crate) fn changed(self, kind: OpKind, meaning: Option<Meaning>) -> Meanings
        ensures { result ≡ the_changed kind meaning self }
    {
        if kind.is_prefix() {
            Meanings {
                as_prefix: meaning,
                as_infix: self.as_infix,
                as_postfix: self.as_postfix,
            }
        } else if kind.is_postfix() {
            Meanings {
                as_prefix: self.as_prefix,
                as_infix: self.as_infix,
                as_postfix: meaning,
            }
        } else {
            Meanings {
                as_prefix: self.as_prefix,
                as_infix: meaning,
                as_postfix: self.as_postfix,
            }
        }
    }

    /// Whether an operator of this kind would make the name both infix and postfix.
    fn clashes(self, kind: OpKind) -> bool
        ensures { result ≡ the_clash kind self }
    {
        (kind.is_infix() && self.as_postfix.is_some())
            || (kind.is_postfix() && self.as_infix.is_some())
    }
}

fn is_reserved(name: &str) -> bool
    ensures { result ≡ the_reserved name.now }
{
    name == "[]" || name == "{}" || name == "|"
}

/// The operators of a program: for each name at most one prefix, one infix and one postfix operator. A clause sees the table.
#[derive(Drop)]
pub struct Ops {
    table: MeaningMap,
}

impl Model for Ops {
    ghost use Rattle.op_term.specs.Ops.{Table, IsTable};

    ghost Value = { Table };

    ghost view = { λ o. o.table };

    ghost invariant = { λ o. IsTable o.table };
}

fn add_group(
    table: &mut MeaningMap,
    priority: u32,
    kind: OpKind,
    names: &[&str],
) -> Result<(), Memory>
    ensures { OnOk result (table.new ≡ fold (λ t n. with_op t priority kind n.now) table.old names.now) }
{
    for name in names {
        table.set(priority, kind, name)?;
    }
    Ok(())
}

// The operators of clauses and directives.
fn add_clause_operators(t: &mut MeaningMap) -> Result<(), Memory>
    ensures { OnOk result (t.new ≡ with_groups t.old clause_operators) }
{
    add_group(t, 1200, OpKind::Xfx, &[":-", "-->"])?;
    add_group(t, 1200, OpKind::Fx, &[":-", "?-"])?;
    add_group(
        t,
        1150,
        OpKind::Fx,
        &["dynamic", "discontiguous", "multifile", "initialization"],
    )?;
    Ok(())
}

// The operators of bodies.
fn add_control_operators(t: &mut MeaningMap) -> Result<(), Memory>
    ensures { OnOk result (t.new ≡ with_groups t.old control_operators) }
{
    add_group(t, 1100, OpKind::Xfy, &[";"])?;
    add_group(t, 1050, OpKind::Xfy, &["->"])?;
    add_group(t, 1000, OpKind::Xfy, &[","])?;
    add_group(t, 900, OpKind::Fy, &["\\+"])
}

// The operators that compare.
fn add_comparison_operators(t: &mut MeaningMap) -> Result<(), Memory>
    ensures { OnOk result (t.new ≡ with_groups t.old comparison_operators) }
{
    add_group(
        t,
        700,
        OpKind::Xfx,
        &["=", "\\=", "==", "\\==", "@<", "@=<", "@>", "@>="],
    )?;
    add_group(
        t,
        700,
        OpKind::Xfx,
        &["=..", "is", "=:=", "=\\=", "<", "=<", ">", ">="],
    )
}

// The operators of arithmetic.
fn add_arithmetic_operators(t: &mut MeaningMap) -> Result<(), Memory>
    ensures { OnOk result (t.new ≡ with_groups t.old arithmetic_operators) }
{
    add_group(t, 500, OpKind::Yfx, &["+", "-", "/\\", "\\/"])?;
    add_group(
        t,
        400,
        OpKind::Yfx,
        &["*", "/", "//", "rem", "mod", "div", "<<", ">>"],
    )?;
    add_group(t, 200, OpKind::Xfx, &["**"])?;
    add_group(t, 200, OpKind::Xfy, &["^"])?;
    add_group(t, 200, OpKind::Fy, &["-", "+", "\\"])
}

impl Ops {
    /// The operators of the standard (ISO/IEC 13211-1, 6.3.4.4), and this project's own: the prefix operators `dynamic`,
    /// `discontiguous`, `multifile` and `initialization`.
    pub fn iso(alloc: Global) -> Result<Ops, Memory>
        ensures iso { IfOk result (λ o. o ≡ iso_table) }
        ensures table { IfOk result (λ o. IsTable o) }
    {
        let mut table = MeaningMap::new(alloc);
        add_clause_operators(&mut table)?;
        add_control_operators(&mut table)?;
        add_comparison_operators(&mut table)?;
        add_arithmetic_operators(&mut table)?;
        Ok(Ops { table })
    }

    /// Sets an operator, or removes the one of that class by priority 0 (ISO/IEC 13211-1, 8.14.3). The refusals are tested in
    /// the order of `OpFault`; a refused set changes nothing.
    pub fn set(&mut self, priority: i64, kind: OpKind, name: &str) -> Result<(), OpFault>
        ensures ok { OnOk result (set_in self.old priority kind name.now ≡ Ok self.new) }
        ensures refused { IfErr result (λ e. e ≢ want_of_memory → set_in self.old priority kind name.now ≡ Err e) }
        ensures err { OnErr result (self.new ≡ self.old) }
        ensures table { IsTable self.new }
    {
        let _ = &self.table;
        if priority < 0 || priority > 1200 {
            return Err(OpFault::Priority);
        }
        if name == "," {
            return Err(OpFault::Comma);
        }
        if is_reserved(name) {
            return Err(OpFault::Reserved);
        }
        if self.table.at(name).clashes(kind) {
            return Err(OpFault::Clash);
        }
        self.table.set(priority as u32, kind, name)?;
        Ok(())
    }

    /// What a name is as a prefix operator, in constant time.
    pub fn prefix(&self, name: &str) -> Option<Meaning>
        ensures value { result ≡ prefix_in self.now name.now }
        ensures table { IsTable self.now }
    {
        self.table.at(name).as_prefix
    }

    /// What a name is as an infix operator, in constant time.
    pub fn infix(&self, name: &str) -> Option<Meaning>
        ensures value { result ≡ infix_in self.now name.now }
        ensures table { IsTable self.now }
    {
        self.table.at(name).as_infix
    }

    /// What a name is as a postfix operator, in constant time.
    pub fn postfix(&self, name: &str) -> Option<Meaning>
        ensures value { result ≡ postfix_in self.now name.now }
        ensures table { IsTable self.now }
    {
        self.table.at(name).as_postfix
    }

    /// An equal table.
    pub fn copy(&self) -> Result<Ops, Memory>
        ensures value { IfOk result (λ o. o ≡ self.now) }
        ensures table { IsTable self.now }
    {
        Ok(Ops {
            table: self.table.copy()?,
        })
    }
}
