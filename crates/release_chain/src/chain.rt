//! The chain: the inputs, and the steps with their outputs.
ghost use Rattle.std.specs.Prelude.{◌≡◌, Some};
ghost use Rattle.rel_io.specs.FolderState.{Files, NoCountFell};
ghost use Rattle.chain_words.specs.Laws.{NoOutputIsInput};
ghost use Rattle.release_chain.specs.Ending.{Caused};
ghost use Rattle.release_chain.specs.inner.Finish.{ChainEnds};

use crate::inputs::load_inputs;
use crate::output::put_output;
use crate::steps::do_steps;
use crate::work::Work;
use chain_words::Chain;
use hash_key::HashKey;
use rel_io::Folder;
use release_report::Fault;
use std::alloc::Global;

/// Runs a chain.
pub fn run_chain<F: Folder>(
    alloc: Global,
    hash_key: HashKey,
    folder: &mut F,
    chain: &Chain,
) -> Result<Work, Fault>
    requires apart { NoOutputIsInput chain.now }
    ensures caused { Caused result (F.state folder.old) (F.state folder.new) }
    ensures counts { NoCountFell (F.state folder.old) (F.state folder.new) }
    ensures ends { (files : Files) → (F.state folder.old).holds ≡ Some files → ChainEnds files chain.now result (F.state folder.old).holds (F.state folder.new).holds }
{
    let work = load_inputs(alloc, hash_key, folder, chain)?;
    let work = put_output(alloc, folder, &chain.first, work)?;
    do_steps(alloc, folder, chain.steps.as_slice(), work)
}
