//! `Front`: the names of a module that grows, what is known for them, and whose axioms are to be tested again.
ghost use Rattle.std.specs.Prelude.{◌≡◌, ◌+◌, ◌++◌, [], ◌∷◌, true, IfNone, IfOk, OnOk, length, replicate};
ghost use Rattle.std.specs.Option.{option_to_list};
ghost use Rattle.locality_core.specs.Plain.{IsPlainOf};
ghost use Rattle.locality_tables.specs.Local.{is_local};
ghost use Rattle.module_extract.specs.Module.{fills_of};
ghost use Rattle.module_extract.specs.inner.Front.{Entered, IsFront};
ghost use Rattle.owl_axioms.specs.Names.{body_names};
ghost use Rattle.owl_axioms.specs.Signature.{scope_of};

use crate::naming::names_in_body;
use crate::setting::Setting;
use locality_core::{Locality, Plain, Verdicts, is_local_cached};
use owl_axioms::{Axiom, Body, Name, Sig};
use rel_io::{Dup, NoMemory, Steps};
use std::alloc::Global;
use std::marker::Model;
use std::sync::ledger::Ledger;

/// The front of a module: seen as its names, the verdicts for them, of each list of axioms whether its name is still
/// outside, and the lists whose axioms are to be tested again.
#[derive(Drop)]
pub(crate) struct Front<L: Locality> {
    names: Sig,
    verdicts: Verdicts<L>,
    fresh: Vec<bool>,
    waiting: Vec<u64>,
}

impl<L: Locality> Model for Front<L> {
    ghost use Rattle.module_extract.specs.inner.Front.{FrontState};

    ghost Value = { FrontState };

    ghost view = { λ f. record { names = f.names; verdicts = f.verdicts; fresh = f.fresh.items; waiting = f.waiting.items } };
}

impl<L: Locality> Front<L> {
    /// The front at the seed: every name is outside, and no list waits.
    pub(crate) fn new(alloc: Global, setting: &Setting, sig: &Sig) -> Result<Front<L>, NoMemory>
        ensures front { IfOk result (IsFront (fills_of L.CLASSES L.ROLES) setting.now.pool setting.now.table) }
        ensures names { IfOk result (λ f. f.names ≡ sig.now) }
        ensures fresh { IfOk result (λ f. f.fresh ≡ replicate (length setting.now.table.lists) true) }
        ensures waiting { IfOk result (λ f. f.waiting ≡ []) }
    {
        let names = sig.copy(alloc)?;
        let verdicts = Verdicts::<L>::new(alloc, &setting.pool, &names)?;
        let fresh = vec![in alloc; true; setting.table.len()]?;
        Ok(Front {
            names,
            verdicts,
            fresh,
            waiting: Vec::new(alloc),
        })
    }

    /// Whether an axiom is local for the names.
    pub(crate) fn is_local<G: Ledger>(
        &self,
        setting: &Setting,
        one: &Axiom,
        plain: &Plain,
        steps: &mut Steps<G>,
    ) -> bool
        requires front { IsFront (fills_of L.CLASSES L.ROLES) setting.now.pool setting.now.table self.now }
        requires nodes { IsPlainOf setting.now.pool one.now.body plain.now }
        ensures table { result ≡ is_local L.CLASSES L.ROLES (scope_of self.now.names) one.now.body }
        ensures ticks { steps.new ≡ steps.old + 1 }
    {
        is_local_cached::<L, G>(
            &setting.pool,
            &self.names,
            &self.verdicts,
            one,
            plain,
            steps,
        )
    }

    /// A name enters: what is known is renewed, and the name's axioms are to be tested again.
    pub(crate) fn enter(&mut self, setting: &Setting, name: &Name) -> Result<(), NoMemory>
        requires { IsFront (fills_of L.CLASSES L.ROLES) setting.now.pool setting.now.table self.old }
        ensures front { OnOk result (IsFront (fills_of L.CLASSES L.ROLES) setting.now.pool setting.now.table self.new) }
        ensures entered { OnOk result (Entered setting.now.table (name.now ∷ []) self.old self.new) }
    {
        let is_new = self.names.add(name)?;
        if !is_new {
            return Ok(());
        }
        self.verdicts.grow(&setting.pool, &self.names, name);
        match setting.table.place(name) {
            None => Ok(()),
            Some(at) => {
                self.fresh[at] = false;
                self.waiting.push(at as u64)?;
                Ok(())
            }
        }
    }

    /// Takes one of the lists that wait.
    pub(crate) fn pop(&mut self) -> Option<u64>
        ensures waiting { self.old.waiting ≡ self.new.waiting ++ option_to_list result }
        ensures rest { self.new ≡ record self.old { waiting = self.new.waiting } }
        ensures end { IfNone result (self.old.waiting ≡ []) }
    {
        self.waiting.pop()
    }
}

/// The names of an axiom enter.
pub(crate) fn enter_all<L: Locality>(
    alloc: Global,
    setting: &Setting,
    body: &Body,
    front: &mut Front<L>,
) -> Result<(), NoMemory>
    requires { IsFront (fills_of L.CLASSES L.ROLES) setting.now.pool setting.now.table front.old }
    ensures front { OnOk result (IsFront (fills_of L.CLASSES L.ROLES) setting.now.pool setting.now.table front.new) }
    ensures entered { OnOk result (Entered setting.now.table (body_names body.now) front.old front.new) }
{
    let names = names_in_body(alloc, body)?;
    'names: for name in names.as_slice() {
        front.enter(setting, name)?;
    }
    Ok(())
}
