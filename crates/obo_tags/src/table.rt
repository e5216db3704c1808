//! The one table of the tags.
ghost use Rattle.std.specs.Prelude.{◌≡◌, length};
ghost use Rattle.obo_tags.specs.inner.Rows.{AreRows};

use crate::ValueShape;
use crate::ValueShape::{
    Bool, Def, Id, IdOrPair, Pair, Property, SubsetDef, Synonym, SynonymDef, Text, XrefShape,
};

/// A tag, the shape of its value, and its ranks in the header, a Term, a Typedef and an Instance.
pub(crate) type Row = (
    &'static [u8],
    ValueShape,
    Option<u8>,
    Option<u8>,
    Option<u8>,
    Option<u8>,
);

/// The rows of the table.
pub(crate) fn rows() -> &'static [Row]
    ensures told { AreRows result.now }
    ensures len { length result.now ≡ 51 }
{
    &TABLE
}

/// Every tag, in the order of their bytes.
static TABLE: [Row; 51] = [
    (b"alt_id", Id, None, Some(4), Some(4), Some(4)),
    (b"auto-generated-by", Text, Some(4), None, None, None),
    (b"builtin", Bool, None, Some(10), Some(10), None),
    (b"comment", Text, None, Some(6), Some(6), Some(6)),
    (b"consider", Id, None, Some(22), Some(34), Some(17)),
    (b"created_by", Text, None, Some(18), Some(30), Some(13)),
    (b"creation_date", Text, None, Some(19), Some(31), Some(14)),
    (b"data-version", Text, Some(1), None, None, None),
    (b"date", Text, Some(2), None, None, None),
    (b"def", Def, None, Some(5), Some(5), Some(5)),
    (b"default-namespace", Text, Some(8), None, None, None),
    (b"disjoint_from", Id, None, Some(16), Some(26), None),
    (b"domain", Id, None, None, Some(12), None),
    (b"equivalent_to", Id, None, Some(15), Some(25), None),
    (b"format-version", Text, Some(0), None, None, None),
    (b"holds_over_chain", Pair, None, None, Some(23), None),
    (b"id", Id, None, Some(0), Some(0), Some(0)),
    (b"idspace", Text, Some(9), None, None, None),
    (b"import", Id, Some(5), None, None, None),
    (b"instance_of", Id, None, None, None, Some(11)),
    (b"intersection_of", IdOrPair, None, Some(13), None, None),
    (b"inverse_of", Id, None, None, Some(27), None),
    (b"is_a", Id, None, Some(12), Some(22), None),
    (b"is_anonymous", Bool, None, Some(1), Some(1), Some(1)),
    (b"is_anti_symmetric", Bool, None, None, Some(14), None),
    (b"is_asymmetric", Bool, None, None, Some(18), None),
    (b"is_class_level", Bool, None, None, Some(29), None),
    (b"is_cyclic", Bool, None, None, Some(15), None),
    (b"is_functional", Bool, None, None, Some(20), None),
    (b"is_inverse_functional", Bool, None, None, Some(21), None),
    (b"is_metadata_tag", Bool, None, None, Some(28), None),
    (b"is_obsolete", Bool, None, Some(20), Some(32), Some(15)),
    (b"is_reflexive", Bool, None, None, Some(16), None),
    (b"is_symmetric", Bool, None, None, Some(17), None),
    (b"is_transitive", Bool, None, None, Some(19), None),
    (b"name", Text, None, Some(2), Some(2), Some(2)),
    (b"namespace", Text, None, Some(3), Some(3), Some(3)),
    (b"ontology", Id, Some(11), None, None, None),
    (
        b"property_value",
        Property,
        Some(12),
        Some(11),
        Some(11),
        Some(10),
    ),
    (b"range", Id, None, None, Some(13), None),
    (b"relationship", Pair, None, Some(17), None, Some(12)),
    (b"remark", Text, Some(10), None, None, None),
    (b"replaced_by", Id, None, Some(21), Some(33), Some(16)),
    (b"saved-by", Text, Some(3), None, None, None),
    (b"subset", Id, None, Some(7), Some(7), Some(7)),
    (b"subsetdef", SubsetDef, Some(6), None, None, None),
    (b"synonym", Synonym, None, Some(8), Some(8), Some(8)),
    (b"synonymtypedef", SynonymDef, Some(7), None, None, None),
    (b"transitive_over", Id, None, None, Some(24), None),
    (b"union_of", Id, None, Some(14), None, None),
    (b"xref", XrefShape, None, Some(9), Some(9), Some(9)),
];
