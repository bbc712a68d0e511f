ghost use Rattle.std.specs.Prelude.{◌≡◌, length, codes, Ok, IfOk, OnOk};
ghost use Rattle.op_logic.specs.Names.{named};
ghost use Rattle.op_trace.specs.Database.{text_eq};
ghost use Rattle.op_store.specs.Queries.{IsSoundGoal};
ghost use Rattle.op_session.specs.Commands.{command_alone, command_with};

use op_base::Memory;
use op_reader::ReadFaultKind;
use op_store::{CommandFault, Goal, Store};
use op_term::{Node, Tree, Whole};

/// What a text means as a command.
#[derive(Clone, Copy, Debug, PartialEq, Eq)]
pub enum Meaning {
    /// `next`.
    Next,
    /// A term that is no command by now.
    Other,
    /// It can't be read, for this cause at this place.
    Unreadable(u64, ReadFaultKind),
}

impl Meaning {
    ghost use Rattle.op_session.specs.Session.{is_next as the_next, goal_meaning, meaning};
    ghost use Rattle.op_session.specs.inner.Reader.{IsReader};

    /// Reads a text as a command, with a store that was made for it.
    pub fn of(store: &mut Store, text: &[u8]) -> Result<Meaning, Memory>
        requires { IsReader store.old }
        ensures meaning { IfOk result (λ m. m ≡ meaning text.now) }
        ensures reader { OnOk result (IsReader store.new) }
    {
        match store.command(text) {
            Ok(goal) => Ok(Meaning::of_goal(store, &goal)),
            Err(CommandFault::Bad { place, kind }) => Ok(Meaning::Unreadable(place, kind)),
            Err(CommandFault::NotBody(_)) => Ok(Meaning::Other),
            Err(CommandFault::Memory) => Err(Memory),
        }
    }

    fn of_goal(store: &Store, goal: &Goal) -> Meaning
        requires { IsSoundGoal (length store.now.names) goal.now }
        ensures { result ≡ goal_meaning (named store.now.names goal.now.body) }
    {
        if Meaning::is_next(store, goal) {
            Meaning::Next
        } else {
            Meaning::Other
        }
    }

    // Whether a goal is the atom `next`.
    fn is_next(store: &Store, goal: &Goal) -> bool
        requires { IsSoundGoal (length store.now.names) goal.now }
        ensures { result ≡ the_next (named store.now.names goal.now.body) }
    {
        let whole = Whole::new(&goal.body);
        match whole.node(&whole.root()) {
            Node::Atom(name) => is_next_name(store.symbols().name_of(name)),
            _ => false,
        }
    }
}

fn is_next_name(name: &str) -> bool
    ensures { result ≡ text_eq name.now (codes "next") }
{
    name == "next"
}

/// What a text asks for, read as a command.
#[derive(Drop)]
pub enum Asked {
    /// A command, with its goal.
    Command(Command, Goal),
    /// A term that is no command.
    Other,
    /// It can't be read, for this cause at this place.
    Unreadable(u64, ReadFaultKind),
}

impl Asked {
    ghost use Rattle.op_term.specs.Ops.{iso_table};
    ghost use Rattle.op_term.specs.declared.quotes.DoubleQuotes.TheVariants.{Codes};
    ghost use Rattle.op_store.specs.Load.{command_of};
    ghost use Rattle.op_store.specs.Queries.{query_named};
    ghost use Rattle.op_session.specs.inner.Reader.{IsReader};
    ghost use Rattle.op_session.specs.inner.Asking.{IsAsked};

    /// Reads a text as a command, with a store that was made for it.
    pub fn of(store: &mut Store, text: &[u8]) -> Result<Asked, Memory>
        requires { IsReader store.old }
        ensures asked { IfOk result (λ a. IsAsked store.new.names a (command_of iso_table Codes text.now)) }
        ensures reader { OnOk result (IsReader store.new) }
    {
        match store.command(text) {
            Ok(goal) => Ok(Asked::of_goal(store, goal)),
            Err(CommandFault::Bad { place, kind }) => Ok(Asked::Unreadable(place, kind)),
            Err(CommandFault::NotBody(_)) => Ok(Asked::Other),
            Err(CommandFault::Memory) => Err(Memory),
        }
    }

    fn of_goal(store: &Store, goal: Goal) -> Asked
        requires { IsSoundGoal (length store.now.names) goal }
        ensures { IsAsked store.now.names result (Ok (query_named store.now.names goal)) }
    {
        match Command::of_goal(store, &goal) {
            Some(command) => Asked::Command(command, goal),
            None => Asked::Other,
        }
    }
}

/// A command, by its name and how many arguments its term has.
#[derive(Clone, Copy, Debug, PartialEq, Eq)]
pub enum Command {
    Next,
    Prev,
    First,
    Last,
    Parent,
    Finish,
    Retry,
    /// With a place.
    Goto,
    /// With a pattern.
    Seek,
    /// With a pattern.
    SeekBack,
}

impl Command {
    ghost use Rattle.op_session.specs.Commands.{command_in};

    /// The command that a goal is.
    pub fn of_goal(store: &Store, goal: &Goal) -> Option<Command>
        requires { IsSoundGoal (length store.now.names) goal.now }
        ensures { result ≡ command_in (named store.now.names goal.now.body) }
    {
        let whole = Whole::new(&goal.body);
        match whole.node(&whole.root()) {
            Node::Atom(name) => alone(store.symbols().name_of(name)),
            Node::Struct(name, 1) => with_argument(store.symbols().name_of(name)),
            _ => None,
        }
    }
}

// The command of a name without an argument.
fn alone(name: &str) -> Option<Command>
    ensures { result ≡ command_alone name.now }
{
    if name == "next" {
        Some(Command::Next)
    } else if name == "prev" {
        Some(Command::Prev)
    } else if name == "first" {
        Some(Command::First)
    } else if name == "last" {
        Some(Command::Last)
    } else if name == "parent" {
        Some(Command::Parent)
    } else if name == "finish" {
        Some(Command::Finish)
    } else if name == "retry" {
        Some(Command::Retry)
    } else {
        None
    }
}

// The command of a name with one argument.
fn with_argument(name: &str) -> Option<Command>
    ensures { result ≡ command_with name.now }
{
    if name == "goto" {
        Some(Command::Goto)
    } else if name == "seek" {
        Some(Command::Seek)
    } else if name == "seek_back" {
        Some(Command::SeekBack)
    } else {
        None
    }
}
