//! Two in the order of their texts.
ghost use Rattle.std.specs.Prelude.{◌≡◌, IfOk};
ghost use Rattle.owl_axioms.specs.Proper.{in_order};
ghost use Rattle.owl_axioms.specs.Text as text;
ghost use Rattle.obo_statements.specs.inner.Order.{in_text_order};

use owl_axioms::{ClassExpr, expr_text};
use rel_io::{Iri, NoMemory};
use std::alloc::Global;

/// Whether the first of two texts is not above the second.
#[tactic(auto, unfolding(owl_axioms::specs::Proper::in_order))]
fn in_order(one: &[u8], other: &[u8]) -> bool
    ensures { result ≡ in_order one.now other.now }
{
    !one.cmp(other).is_gt()
}

/// The text of an IRI.
#[tactic(auto, unfolding(owl_axioms::specs::Text::iri_text))]
fn iri_text(alloc: Global, iri: &Iri) -> Result<Vec<u8>, NoMemory>
    ensures { IfOk result (λ made. made.items ≡ text.iri_text iri.now) }
{
    let mut text = Vec::from_slice(alloc, b"<")?;
    text.extend_from_slice(iri.as_slice())?;
    text.push(b'>')?;
    Ok(text)
}

/// The two, the one with the least text first.
pub fn iris_in_order(alloc: Global, one: Iri, other: Iri) -> Result<(Iri, Iri), NoMemory>
    ensures { IfOk result (λ pair. pair ≡ in_text_order text.iri_text one other) }
{
    let first = iri_text(alloc, &one)?;
    let second = iri_text(alloc, &other)?;
    if in_order(first.as_slice(), second.as_slice()) {
        Ok((one, other))
    } else {
        Ok((other, one))
    }
}

/// Whether the first of two expressions has the least text.
pub fn exprs_in_order(alloc: Global, one: &ClassExpr, other: &ClassExpr) -> Result<bool, NoMemory>
    ensures { IfOk result (λ are. are ≡ in_order (text.expr_text one.now) (text.expr_text other.now)) }
{
    let mut first = Vec::new(alloc);
    expr_text(alloc, one, &mut first)?;
    let mut second = Vec::new(alloc);
    expr_text(alloc, other, &mut second)?;
    Ok(in_order(first.as_slice(), second.as_slice()))
}
