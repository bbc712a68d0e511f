ghost use Rattle.std.specs.Prelude.{◌≡◌, ◌≢◌, List, ℕ, Some, true, map, string_bytes, IsTrue, IfOk, length};
ghost use Rattle.op_desk.specs.Frame.{Each, SameBut};
ghost use Rattle.op_desk.specs.declared.chan.Chan.{Chan};
ghost use Rattle.op_store.specs.Stored.{database_of, new_store};
ghost use Rattle.op_store.specs.Load.{load_text, goal_of};
ghost use Rattle.op_store.specs.Queries.{query_named, IsSoundGoal};
ghost use Rattle.op_store.specs.declared.names.locked.Locked.{Locked};
ghost use Rattle.op_session.specs.Call.{Session, outcome_of, first_world, traced_of, with_loaded, with_goal};
ghost use Rattle.op_session.specs.inner.Progress.{Leaves};
ghost use Rattle.op_session.specs.inner.Refusing.{GoesOn, told_outcome};
ghost use Rattle.op_session.specs.Promise.{WhenTold, DoneAs, CostsAs, LoadAs, TooLongAs, BrokenAs, WordsRefusedAs};
ghost use Rattle.op_session.specs.Promise.{IsBroken, IsRefused, CountsAs, IsFaultless, HasFile};
ghost use Rattle.op_session.specs.Sight.{sight};

use crate::runnable::{are_runnable, is_runnable_goal};
use crate::session::session;
use crate::status::Status;
use crate::talk::{demand_runnable, ended_as, read_file, refuse, say, say_name};
use op_base::Steps;
use op_desk::{Bytes, Desk};
use op_store::{Goal, Locked, Store};
use std::alloc::Global;
use std::sync::ledger::Ledger;

// How many steps the traced run may take.
const BUDGET: u64 = 10_000_000;

// The name of the goal in a line of a refusal.
const GOAL: &str = "(goal)";

/// One call of the program: `words` are those behind its name, the program's file and the goal. The commands are taken
/// from the desk's Commands a byte at a time, and each answer is written to its Talk at once. A refusal writes one line.
pub fn opium<D: Desk, L: Ledger>(
    alloc: Global,
    words: &[String],
    desk: &mut D,
    steps: &mut Steps<L>,
) -> Status
    requires { Each (λ (c : Chan). D.fresh desk.old c ≡ true) }

    // What the call does, by the files and the commands, as far as the desk tells them.
    ensures done { result ≡ Status.Done → WhenTold (D.shelf desk.old) (λ files.
        DoneAs (outcome_of files (map string_bytes words.now)) (sight D.Desk desk.old) (sight D.Desk desk.new)) }
    ensures cost { WhenTold (D.shelf desk.old) (λ files.
        CostsAs (outcome_of files (map string_bytes words.now)) result (sight D.Desk desk.old) steps.old steps.new) }
    ensures load { result ≡ Status.Load → WhenTold (D.shelf desk.old) (λ files.
        LoadAs (outcome_of files (map string_bytes words.now)) (sight D.Desk desk.old) (sight D.Desk desk.new)) }
    ensures too_long { result ≡ Status.TooLong → WhenTold (D.shelf desk.old) (λ files.
        TooLongAs (outcome_of files (map string_bytes words.now)) (sight D.Desk desk.old) (sight D.Desk desk.new)
        steps.old steps.new) }
    ensures broken { IsBroken result → WhenTold (D.shelf desk.old) (λ files.
        BrokenAs (outcome_of files (map string_bytes words.now)) result (sight D.Desk desk.old) (sight D.Desk desk.new)
        steps.old steps.new) }
    ensures steady { IsTrue (D.steady desk.old) → WhenTold (D.shelf desk.old) (λ files.
        HasFile (outcome_of files (map string_bytes words.now)) → IsFaultless result) }

    // What holds whatever the desk tells.
    ensures usage { result ≡ Status.Usage → length words.now ≢ 2 }
    ensures words { length words.now ≢ 2 → WordsRefusedAs result (sight D.Desk desk.old) (sight D.Desk desk.new) steps.old steps.new }
    ensures untaken { IsRefused result → D.left desk.new Chan.Commands ≡ D.left desk.old Chan.Commands }
    ensures unpaid { IsRefused result → steps.new ≡ steps.old }
    ensures different { result ≢ Status.Different }
    ensures counts { CountsAs result (D.read_faults desk.old) (D.read_faults desk.new) (D.write_faults desk.old) (D.write_faults desk.new) }
    ensures left { SameBut Chan.Commands (D.left desk.old) (D.left desk.new) }
    ensures written { SameBut Chan.Talk (D.written desk.old) (D.written desk.new) }
{
    match words {
        [program, goal] => answer_words(alloc, program, goal, desk, steps),
        _ => ended_as(Status::Usage, say(desk, b"opium: usage words\n")),
    }
}

// The call by its two words.
fn answer_words<D: Desk, L: Ledger>(
    alloc: Global,
    program: &str,
    goal: &str,
    desk: &mut D,
    steps: &mut Steps<L>,
) -> Status
    ensures { Leaves (told_outcome (D.shelf desk.old) program.now goal.now) result
        (sight D.Desk desk.old) (sight D.Desk desk.new) steps.old steps.new }
{
    match prepare(alloc, program, goal, desk) {
        Ok((store, goal)) => session(alloc, store, goal, BUDGET, desk, steps),
        Err(status) => status,
    }
}

// The program and the goal, which can be run. A refusal of one writes its line.
fn prepare<D: Desk>(
    alloc: Global,
    program: &str,
    goal: &str,
    desk: &mut D,
) -> Result<(Store, Goal), Status>
    ensures goes { GoesOn result (told_outcome (D.shelf desk.old) program.now goal.now)
        (λ p. Session (traced_of 10000000 (database_of p.0) (query_named p.0.names p.1)))
        (sight D.Desk desk.old) (sight D.Desk desk.new) }
    ensures sound { IfOk result (λ p. IsSoundGoal (length p.0.names) p.1) }
{
    let mut store = Store::new(alloc, Locked::Program)?;
    let goal = read_both(alloc, &mut store, program, goal, desk)?;
    Ok((store, goal))
}

// Reads the program and the goal, which can be run, into a new store. A refusal of one writes its line.
fn read_both<D: Desk>(
    alloc: Global,
    store: &mut Store,
    program: &str,
    goal: &str,
    desk: &mut D,
) -> Result<Goal, Status>
    requires { store.old ≡ new_store Locked.Program }
    ensures goes { GoesOn result (told_outcome (D.shelf desk.old) program.now goal.now)
        (λ g. Session (traced_of 10000000 (database_of store.new) (query_named store.new.names g)))
        (sight D.Desk desk.old) (sight D.Desk desk.new) }
    ensures sound { IfOk result (IsSoundGoal (length store.new.names)) }
{
    let text = read_program(alloc, program, desk)?;
    load_program(alloc, store, program, text.as_slice(), desk)?;
    let goal = read_goal(alloc, store, goal, desk)?;
    Ok(goal)
}

// The text of the program's file. A file that is too long is refused with its line.
fn read_program<D: Desk>(alloc: Global, name: &str, desk: &mut D) -> Result<Bytes, Status>
    ensures { (goal : List ℕ) → GoesOn result (told_outcome (D.shelf desk.old) name.now goal)
        (λ text. with_loaded name.now goal (load_text Locked.Program first_world text))
        (sight D.Desk desk.old) (sight D.Desk desk.new) }
{
    match read_file(alloc, desk, name)? {
        Some(text) => Ok(text),
        None => Err(ended_as(
            Status::TooLong,
            say_name(alloc, desk, b"opium: too long ", name, b"\n"),
        )),
    }
}

// Loads a program that can be run. A text that can't be loaded, or has a goal that can't be run yet, is refused with its line.
fn load_program<D: Desk>(
    alloc: Global,
    store: &mut Store,
    name: &str,
    text: &[u8],
    desk: &mut D,
) -> Result<(), Status>
    requires { store.old.locked ≡ Locked.Program }
    ensures goes { (goal : List ℕ) → GoesOn result
        (Some (with_loaded name.now goal (load_text store.old.locked (database_of store.old) text.now)))
        (λ _. with_goal (database_of store.new) (goal_of store.new.table store.new.flags.quotes goal))
        (sight D.Desk desk.old) (sight D.Desk desk.new) }
    ensures locked { store.new.locked ≡ Locked.Program }
{
    match store.load(text) {
        Ok(()) => demand_runnable(alloc, desk, name, are_runnable(alloc, store)?),
        Err(fault) => Err(refuse(alloc, desk, store, name, fault)),
    }
}

// Reads a goal that can be run over the program. Another is refused with its line.
fn read_goal<D: Desk>(
    alloc: Global,
    store: &mut Store,
    text: &str,
    desk: &mut D,
) -> Result<Goal, Status>
    requires { store.old.locked ≡ Locked.Program }
    ensures goes { GoesOn result (Some (with_goal (database_of store.old) (goal_of store.old.table store.old.flags.quotes text.now)))
        (λ g. Session (traced_of 10000000 (database_of store.new) (query_named store.new.names g)))
        (sight D.Desk desk.old) (sight D.Desk desk.new) }
    ensures sound { IfOk result (IsSoundGoal (length store.new.names)) }
{
    let goal = match store.goal(text.as_bytes()) {
        Ok(goal) => goal,
        Err(fault) => return Err(refuse(alloc, desk, store, GOAL, fault)),
    };
    demand_runnable(alloc, desk, GOAL, is_runnable_goal(alloc, store, &goal)?)?;
    Ok(goal)
}
