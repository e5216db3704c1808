//! The clauses that are translated, and those that are not.
ghost use Rattle.std.specs.Prelude.{◌≡◌, IfOk, false, filter, not};
ghost use Rattle.std.specs.Option.{option_map_or};
ghost use Rattle.obo_frames.specs.Framed.{unlined};
ghost use Rattle.obo_mapping.specs.Documents as spec;
ghost use Rattle.obo_to_owl.specs.inner.Left.{broken_in, is_left};

use crate::misfit::{group_of, is_misfit, is_of_relation, is_other_name};
use crate::rows::Row;
use crate::sets::has;
use crate::situation::Situation;
use obo_statements::Group;
use rel_io::NoMemory;
use std::alloc::Global;

/// The clauses that are translated, and those that are not, in their order.
pub fn parted<'a>(
    alloc: Global,
    situation: &Situation,
    rows: &[Row<'a>],
) -> Result<(Vec<Row<'a>>, Vec<Row<'a>>), NoMemory>
    ensures translated { IfOk result
        (λ parts. parts.0.items ≡ filter (λ row. not (is_left situation.now row)) rows.now) }
    ensures left { IfOk result (λ parts. parts.1.items ≡ filter (is_left situation.now) rows.now) }
{
    let mut translated = Vec::with_capacity(alloc, rows.len())?;
    let mut left = Vec::new(alloc);
    for row in rows {
        if is_left(alloc, situation, row)? {
            left.push(*row)?;
        } else {
            translated.push(*row)?;
        }
    }
    Ok((translated, left))
}

/// Whether the clause is not translated.
pub fn is_left(alloc: Global, situation: &Situation, row: &Row) -> Result<bool, NoMemory>
    ensures { IfOk result (λ is. is ≡ is_left situation.now row.now) }
{
    let is = is_misfit(row.placed)
        || is_in_broken(situation, row)
        || is_of_relation(has(&situation.metadata, row.iri), row.placed)
        || is_other_name(alloc, situation.name.as_ref(), row.placed)?;
    Ok(is)
}

/// Whether the clause is of a group that has a misfit.
fn is_in_broken(situation: &Situation, row: &Row) -> bool
    ensures { result ≡
        option_map_or (broken_in situation.now row.now.iri.now) (spec.group_of (unlined row.now.placed.now)) false }
{
    match group_of(row.placed) {
        Some(Group::Intersection) => has(&situation.intersections, row.iri),
        Some(Group::Union) => has(&situation.unions, row.iri),
        None => false,
    }
}
