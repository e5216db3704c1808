//! The steps, each with its output.
ghost use Rattle.std.specs.Prelude.{IfOk};
ghost use Rattle.rel_io.specs.FolderState.{Files, NoCountFell};
ghost use Rattle.chain_words.specs.Command.{reads_of};
ghost use Rattle.release_chain.specs.Ending.{Caused, Ends, SameAtAll};
ghost use Rattle.release_chain.specs.Trace.{Trace};
ghost use Rattle.release_chain.specs.Steps.{step_part, steps_part, turn_part};
ghost use Rattle.release_chain.specs.inner.Names.{AreApart, all_read};
ghost use Rattle.release_chain.specs.inner.Work.{HasForms, IsAt};

use crate::axioms::{reduced, relaxed};
use crate::inference::reasoned;
use crate::modules::extract_terms;
use crate::output::put_output;
use crate::work::Work;
use chain_words::{Output, Step};
use rel_io::Folder;
use release_report::Fault;
use std::alloc::Global;

/// Does a step.
fn do_step<F: Folder>(alloc: Global, folder: &mut F, step: &Step, work: Work) -> Result<Work, Fault>
    requires forms { HasForms work }
    ensures caused { Caused result (F.state folder.old) (F.state folder.new) }
    ensures counts { NoCountFell (F.state folder.old) (F.state folder.new) }
    ensures forms { IfOk result HasForms }
    ensures ends { (files : Files) (trace : Trace) → IsAt work trace → SameAtAll (reads_of step.now) files (F.state folder.old).holds → Ends IsAt (step_part files step.now trace) result (F.state folder.old).holds (F.state folder.new).holds }
{
    match step {
        Step::Extract { method, terms } => extract_terms(alloc, folder, *method, terms, work),
        Step::Reason => reasoned(alloc, work),
        Step::Relax => relaxed(alloc, work),
        Step::Reduce { keep } => reduced(alloc, *keep, work),
        Step::Convert => Ok(work),
    }
}

/// Does a step and writes its output.
fn do_turn<F: Folder>(
    alloc: Global,
    folder: &mut F,
    turn: &(Step, Option<Output>),
    work: Work,
) -> Result<Work, Fault>
    requires forms { HasForms work }
    ensures caused { Caused result (F.state folder.old) (F.state folder.new) }
    ensures counts { NoCountFell (F.state folder.old) (F.state folder.new) }
    ensures forms { IfOk result HasForms }
    ensures ends { (files : Files) (trace : Trace) → IsAt work trace → SameAtAll (reads_of turn.now.0) files (F.state folder.old).holds → Ends IsAt (turn_part files turn.now trace) result (F.state folder.old).holds (F.state folder.new).holds }
{
    let work = do_step(alloc, folder, &turn.0, work)?;
    put_output(alloc, folder, &turn.1, work)
}

/// Does the steps, each with its output.
pub fn do_steps<F: Folder>(
    alloc: Global,
    folder: &mut F,
    turns: &[(Step, Option<Output>)],
    work: Work,
) -> Result<Work, Fault>
    requires apart { AreApart turns.now }
    requires forms { HasForms work }
    ensures caused { Caused result (F.state folder.old) (F.state folder.new) }
    ensures counts { NoCountFell (F.state folder.old) (F.state folder.new) }
    ensures forms { IfOk result HasForms }
    ensures ends { (files : Files) (trace : Trace) → IsAt work trace → SameAtAll (all_read turns.now) files (F.state folder.old).holds → Ends IsAt (steps_part files turns.now trace) result (F.state folder.old).holds (F.state folder.new).holds }
{
    let mut work = work;
    for index in 0..turns.len() {
        work = do_turn(alloc, folder, &turns[index], work)?;
    }
    Ok(work)
}
