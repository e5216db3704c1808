//! `Declared`: the entities that an ontology declares.
ghost use Rattle.std.specs.Prelude.{◌≡◌, ◌++◌, ◌∷◌, [], IfOk, OnOk};
ghost use Rattle.std.specs.List.{filter_map};
ghost use Rattle.std.specs.Option.{option_to_list};
ghost use Rattle.owl_ontology.specs.Ontology.{axioms_of};
ghost use Rattle.text_sets.specs.Sets.{SameMembers};
ghost use Rattle.obo_mapping.specs.Axioms.{is_declared};
ghost use Rattle.obo_mapping.specs.Documents.{declared_in};

use hash_key::HashKey;
use indexmap::IndexSet;
use owl_axioms::{Axiom, Body, Name};
use owl_ontology::Ontology;
use rel_io::{Dup, NoMemory};
use std::alloc::Global;
use std::marker::Model;

/// The entities that an ontology declares: seen as a list of them, each once.
#[derive(Drop)]
pub struct Declared {
    names: IndexSet<Name, HashKey>,
}

impl Model for Declared {
    ghost use Rattle.std.specs.Prelude.{List};
    ghost use Rattle.owl_axioms.specs.declared.name.Name.{Name};

    ghost Value = { List Name };

    ghost view = { λ declared. declared.names.keys };
}

impl Declared {
    /// The entities that the ontology declares.
    pub fn of(alloc: Global, ontology: &Ontology) -> Result<Declared, NoMemory>
        ensures { IfOk result (λ declared. SameMembers declared (filter_map declared_in (axioms_of ontology.now.entries))) }
    {
        let mut names = IndexSet::with_hasher(alloc, ontology.hash_key());
        for at in 0..ontology.len() {
            note(alloc, &mut names, ontology.get(at))?;
        }
        Ok(Declared { names })
    }

    /// Whether the entity is declared.
    pub fn has(&self, name: &Name) -> bool
        ensures { result ≡ is_declared self.now name.now }
    {
        self.names.contains(name)
    }
}

/// Adds the entity that an axiom declares.
fn note(alloc: Global, names: &mut IndexSet<Name, HashKey>, stated: &Axiom) -> Result<(), NoMemory>
    ensures { OnOk result (SameMembers names.new.keys (names.old.keys ++ option_to_list (declared_in stated.now))) }
{
    match &stated.body {
        Body::Declaration(name) => {
            let name = name.copy(alloc)?;
            add(names, name)
        }
        _ => Ok(()),
    }
}

/// Adds an entity, unless it is there.
fn add(names: &mut IndexSet<Name, HashKey>, name: Name) -> Result<(), NoMemory>
    ensures { OnOk result (SameMembers names.new.keys (names.old.keys ++ name ∷ [])) }
{
    names.insert(name)?;
    Ok(())
}
