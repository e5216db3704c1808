//! What the words ask for: a chain of steps on one ontology, or a generated ontology.
use rel_io::{Bytes, Dup, Items, NoMemory};
use std::alloc::Global;

/// How `extract` chooses the module (Cuenca Grau et al. 2008).
#[derive(Clone, Copy, Debug, PartialEq, Eq)]
pub enum Method {
    /// By bottom locality.
    Bot,
    /// By top locality.
    Top,
    /// By both in turn, until nothing falls away.
    Star,
}

/// How an output is written.
#[derive(Clone, Copy, Debug, PartialEq, Eq)]
pub enum Format {
    /// OBO Flat File Format 1.4.
    Obo,
    /// OWL 2 Functional-Style Syntax.
    Ofn,
}

/// A file that a step writes.
#[derive(PartialEq, Eq, Drop)]
pub struct Output {
    /// The name of the file.
    pub name: Bytes,
    /// How it is written.
    pub format: Format,
    /// Whether an OBO frame with two values where one is meant is refused.
    pub check: bool,
}

/// A step behind `merge`.
#[derive(Debug, PartialEq, Eq, Drop)]
pub enum Step {
    /// Keeps the module of the names of a term file.
    Extract {
        /// How the module is chosen.
        method: Method,
        /// The name of the term file.
        terms: Bytes,
    },
    /// Adds the subclass axioms that follow.
    Reason,
    /// Adds the subclass axioms that equivalences say.
    Relax,
    /// Drops the subclass axioms that follow from others.
    Reduce {
        /// Whether axioms with annotations stay.
        keep: bool,
    },
    /// Changes nothing: its output alone counts.
    Convert,
}

/// A chain of steps on one ontology.
#[derive(PartialEq, Eq, Drop)]
pub struct Chain {
    /// The inputs that are merged, in the order of the words and as often as they stand there.
    pub inputs: Items<Bytes>,
    /// The catalog, which says where imports lie.
    pub catalog: Option<Bytes>,
    /// The output of `merge`.
    pub first: Option<Output>,
    /// The later steps, each with its output.
    pub steps: Items<(Step, Option<Output>)>,
}

/// What the words ask for.
#[derive(PartialEq, Eq, Drop)]
pub enum Command {
    /// To run a chain.
    Run(Chain),
    /// To generate an ontology of this size, from 10 to 1000000.
    Generate(u32),
}

impl Dup for Method {
    fn copy(&self, _alloc: Global) -> Result<Method, NoMemory> {
        Ok(*self)
    }
}

impl Dup for Format {
    fn copy(&self, _alloc: Global) -> Result<Format, NoMemory> {
        Ok(*self)
    }
}

impl Dup for Output {
    fn copy(&self, alloc: Global) -> Result<Output, NoMemory> {
        let name = self.name.copy(alloc)?;
        Ok(Output {
            name,
            format: self.format,
            check: self.check,
        })
    }
}

impl Dup for Step {
    fn copy(&self, alloc: Global) -> Result<Step, NoMemory> {
        match self {
            Step::Extract { method, terms } => {
                let terms = terms.copy(alloc)?;
                Ok(Step::Extract {
                    method: *method,
                    terms,
                })
            }
            Step::Reason => Ok(Step::Reason),
            Step::Relax => Ok(Step::Relax),
            Step::Reduce { keep } => Ok(Step::Reduce { keep: *keep }),
            Step::Convert => Ok(Step::Convert),
        }
    }
}

impl Dup for Chain {
    fn copy(&self, alloc: Global) -> Result<Chain, NoMemory> {
        let inputs = self.inputs.copy(alloc)?;
        match (
            self.catalog.copy(alloc),
            self.first.copy(alloc),
            self.steps.copy(alloc),
        ) {
            (Ok(catalog), Ok(first), Ok(steps)) => Ok(Chain {
                inputs,
                catalog,
                first,
                steps,
            }),
            (catalog, first, steps) => {
                drop(inputs);
                drop(catalog);
                drop(first);
                drop(steps);
                Err(NoMemory)
            }
        }
    }
}

impl Dup for Command {
    fn copy(&self, alloc: Global) -> Result<Command, NoMemory> {
        match self {
            Command::Run(chain) => {
                let twin = chain.copy(alloc)?;
                Ok(Command::Run(twin))
            }
            Command::Generate(n) => Ok(Command::Generate(*n)),
        }
    }
}
