//! The module, grown by a work list: when a name enters, the axioms that mention it are tested again.
ghost use Rattle.std.specs.Prelude.{◌≡◌, ◌+◌, ◌<◌, ◌≤◌, ℕ, IfOk, OnOk, [], length, get_or};
ghost use Rattle.fact_rows.specs.Member.{In};
ghost use Rattle.module_extract.specs.Laws.{ModelsExtend};
ghost use Rattle.module_extract.specs.Module.{IsModule, fills_of, seed_and};
ghost use Rattle.module_extract.specs.Tests.{test_bound};
ghost use Rattle.module_extract.specs.inner.Front.{IsFront, IsState, IsTested, lists_left, tests_left};
ghost use Rattle.module_extract.specs.inner.Setting.{IsSetting, IsWork};
ghost use Rattle.owl_axioms.specs.Signature.{scope_of};
ghost use Rattle.owl_ontology.specs.Ontology.{axioms_of, flagged};
ghost use Rattle.owl_sem.specs.Models.{Keeps};

use crate::front::{Front, enter_all};
use crate::setting::{Setting, setting_of};
use locality_core::Locality;
use owl_axioms::Sig;
use owl_ontology::Ontology;
use rel_io::{NoMemory, Steps};
use std::alloc::Global;
use std::sync::ledger::Ledger;

/// The module of a part of an ontology for a signature: the part of it that leaves out local axioms alone and that
/// each such part contains. Each model of the module, filled, is a model of the part. A flag says of each axiom
/// whether it is of a part. Each logical axiom of the part is tested once, and again once at most for each of its names.
pub fn module<L: Locality, G: Ledger>(
    alloc: Global,
    ontology: &Ontology,
    part: &Vec<bool>,
    sig: &Sig,
    steps: &mut Steps<G>,
) -> Result<Vec<bool>, NoMemory>
    requires { length part.now.items ≡ length ontology.now.entries }
    ensures exact { IfOk result (λ kept. IsModule (fills_of L.CLASSES L.ROLES) (axioms_of ontology.now.entries) part.now.items (scope_of sig.now) kept.items) }
    ensures keeps { IfOk result (λ kept. Keeps (flagged part.now.items (axioms_of ontology.now.entries)) (flagged kept.items (axioms_of ontology.now.entries))
        (seed_and (scope_of sig.now) (axioms_of ontology.now.entries) kept.items)) }
    ensures extends { IfOk result (λ kept. ModelsExtend (fills_of L.CLASSES L.ROLES) (axioms_of ontology.now.entries) part.now.items (scope_of sig.now) kept.items) }
    ensures ticks { steps.new ≤ steps.old + test_bound (axioms_of ontology.now.entries) part.now.items }
{
    let mut kept = vec![in alloc; false; ontology.len()]?;
    let setting = setting_of(alloc, ontology, part)?;
    let mut front = Front::<L>::new(alloc, &setting, sig)?;
    test_each::<L, G>(
        alloc,
        &setting,
        ontology,
        part,
        sig,
        setting.all.as_slice(),
        &mut front,
        &mut kept,
        steps,
    )?;
    'waits: while let Some(at) = front.pop() {
        test_each::<L, G>(
            alloc,
            &setting,
            ontology,
            part,
            sig,
            setting.table.get(at as usize),
            &mut front,
            &mut kept,
            steps,
        )?;
    }
    Ok(kept)
}

/// Tests the axioms at these places.
fn test_each<L: Locality, G: Ledger>(
    alloc: Global,
    setting: &Setting,
    ontology: &Ontology,
    part: &Vec<bool>,
    sig: &Sig,
    list: &[u64],
    front: &mut Front<L>,
    kept: &mut Vec<bool>,
    steps: &mut Steps<G>,
) -> Result<(), NoMemory>
    requires setting { IsSetting (axioms_of ontology.now.entries) part.now.items setting.now.pool setting.now.plains.items setting.now.table setting.now.all.items }
    requires works { (i : ℕ) → In i list.now → IsWork (axioms_of ontology.now.entries) part.now.items i }
    requires state { IsState (fills_of L.CLASSES L.ROLES) (axioms_of ontology.now.entries) part.now.items (scope_of sig.now) setting.now.pool setting.now.table list.now kept.old.items front.old }
    ensures state { OnOk result (IsState (fills_of L.CLASSES L.ROLES) (axioms_of ontology.now.entries) part.now.items (scope_of sig.now) setting.now.pool setting.now.table [] kept.new.items front.new) }
    ensures tests { OnOk result (tests_left setting.now.table front.new ≡ tests_left setting.now.table front.old) }
    ensures lists { OnOk result (lists_left front.new ≡ lists_left front.old) }
    ensures ticks { steps.new ≤ steps.old + length list.now }
{
    'places: for at in list {
        let _joined = test_at::<L, G>(alloc, setting, ontology, part, *at, front, kept, steps)?;
    }
    Ok(())
}

/// Tests the axiom at a place, if it is outside: whether it joined.
fn test_at<L: Locality, G: Ledger>(
    alloc: Global,
    setting: &Setting,
    ontology: &Ontology,
    part: &Vec<bool>,
    at: u64,
    front: &mut Front<L>,
    kept: &mut Vec<bool>,
    steps: &mut Steps<G>,
) -> Result<bool, NoMemory>
    requires setting { IsSetting (axioms_of ontology.now.entries) part.now.items setting.now.pool setting.now.plains.items setting.now.table setting.now.all.items }
    requires work { IsWork (axioms_of ontology.now.entries) part.now.items at }
    requires long { length kept.old.items ≡ length ontology.now.entries }
    requires front { IsFront (fills_of L.CLASSES L.ROLES) setting.now.pool setting.now.table front.old }
    ensures tested { IfOk result (IsTested (fills_of L.CLASSES L.ROLES) (axioms_of ontology.now.entries) setting.now.pool setting.now.table at kept.old.items front.old kept.new.items front.new) }
    ensures ticks { steps.new ≤ steps.old + 1 }
{
    if kept[at as usize] {
        return Ok(false);
    }
    let one = ontology.get(at as usize);
    if front.is_local::<G>(setting, one, &setting.plains[at as usize], steps) {
        return Ok(false);
    }
    kept[at as usize] = true;
    enter_all::<L>(alloc, setting, &one.body, front)?;
    Ok(true)
}
