//! What an ontology says: names, class expressions, and axioms with their annotations, as trees; and which of them are
//! proper, so that each meaning is written in one way.
#![tactic(auto)]

mod annotation;
mod axiom_phrases;
mod body;
mod class;
mod expr;
mod laws;
mod make;
mod make_axiom;
mod name;
mod naming;
mod sig;
mod sig_laws;
mod sorting;
mod text;
mod vocabulary;

pub use annotation::{NoteValue, Side};
pub use axiom_phrases::axiom_text;
pub use body::{Axiom, Body};
pub use class::{class_iri, class_named};
pub use expr::ClassExpr;
pub use laws::{
    class_has_iri, equality_is_sameness, iri_leads_back, text_tells_expr, text_tells_side,
};
pub use make::{and_of, or_of};
pub use make_axiom::axiom_of;
pub use name::{Kind, Name};
pub use naming::{is_signed, sig_of};
pub use sig::Sig;
pub use sig_laws::{adding_is_union, names_are_signed};
pub use text::expr_text;
pub use vocabulary::{
    owl_deprecated, owl_nothing, owl_thing, rdfs_comment, rdfs_label, xsd, xsd_boolean, xsd_string,
};
