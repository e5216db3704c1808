//! The tags of notes, and the form of each.
ghost use Rattle.std.specs.Prelude.{◌≡◌};
ghost use Rattle.std.specs.Option.{option_map};
ghost use Rattle.obo_notes.specs.Notes.{form_of};
ghost use Rattle.obo_notes.specs.inner.Rows.{ClausesAre, FormsAre, meant, stands};

use obo_tags::FrameKind;

/// The form of a tag's notes: what a value says in a clause of the tag. The first four have one property.
#[derive(Clone, Copy)]
pub enum Form {
    /// A text, as of `name`.
    Text(&'static [u8]),
    /// A word that is kept as it is written, as of `alt_id`.
    Word(&'static [u8]),
    /// An id, as of `subset`.
    Link(&'static [u8]),
    /// That something is true, as of `is_obsolete`.
    Truth(&'static [u8]),
    /// A definition.
    Definition,
    /// A synonym.
    Synonym,
    /// A dbxref.
    Xref,
    /// A property of any kind and its value.
    Property,
    /// A subset.
    Subset,
    /// A synonym type.
    SynonymType,
}

/// A tag, its form, and whether it stands in the header, in a Term, in a Typedef and in an Instance.
pub type Row = (&'static [u8], Form, bool, bool, bool, bool);

/// The rows of the table.
pub fn rows() -> &'static [Row]
    ensures forms { FormsAre result.now }
    ensures clauses { ClausesAre result.now }
{
    &TABLE
}

/// Whether the tag of the row stands in frames of the kind.
pub fn stands(kind: FrameKind, row: &Row) -> bool
    ensures { result ≡ stands kind row.now }
{
    match kind {
        FrameKind::Header => row.2,
        FrameKind::Term => row.3,
        FrameKind::Typedef => row.4,
        FrameKind::Instance => row.5,
    }
}

/// The form of a tag's notes.
pub fn form_of(tag: &[u8]) -> Option<Form>
    ensures { option_map meant result ≡ form_of tag.now }
{
    let table = rows();
    for row in table {
        if row.0 == tag {
            return Some(row.1);
        }
    }
    None
}

/// Each tag of a note, in an order that agrees with the printed one in each frame kind, but `property_value` at the end.
static TABLE: [Row; 28] = [
    (
        b"data-version",
        Form::Text(b"http://www.geneontology.org/formats/oboInOwl#data-version"),
        true,
        false,
        false,
        false,
    ),
    (
        b"date",
        Form::Text(b"http://www.geneontology.org/formats/oboInOwl#date"),
        true,
        false,
        false,
        false,
    ),
    (
        b"saved-by",
        Form::Text(b"http://www.geneontology.org/formats/oboInOwl#saved-by"),
        true,
        false,
        false,
        false,
    ),
    (
        b"auto-generated-by",
        Form::Text(b"http://www.geneontology.org/formats/oboInOwl#auto-generated-by"),
        true,
        false,
        false,
        false,
    ),
    (b"subsetdef", Form::Subset, true, false, false, false),
    (
        b"synonymtypedef",
        Form::SynonymType,
        true,
        false,
        false,
        false,
    ),
    (
        b"default-namespace",
        Form::Text(b"http://www.geneontology.org/formats/oboInOwl#default-namespace"),
        true,
        false,
        false,
        false,
    ),
    (
        b"idspace",
        Form::Text(b"http://www.geneontology.org/formats/oboInOwl#idspace"),
        true,
        false,
        false,
        false,
    ),
    (
        b"remark",
        Form::Text(b"http://www.geneontology.org/formats/oboInOwl#remark"),
        true,
        false,
        false,
        false,
    ),
    (
        b"is_anonymous",
        Form::Truth(b"http://www.geneontology.org/formats/oboInOwl#is_anonymous"),
        false,
        true,
        true,
        true,
    ),
    (
        b"name",
        Form::Text(b"http://www.w3.org/2000/01/rdf-schema#label"),
        false,
        true,
        true,
        true,
    ),
    (
        b"namespace",
        Form::Text(b"http://www.geneontology.org/formats/oboInOwl#hasOBONamespace"),
        false,
        true,
        true,
        true,
    ),
    (
        b"alt_id",
        Form::Word(b"http://www.geneontology.org/formats/oboInOwl#hasAlternativeId"),
        false,
        true,
        true,
        true,
    ),
    (b"def", Form::Definition, false, true, true, true),
    (
        b"comment",
        Form::Text(b"http://www.w3.org/2000/01/rdf-schema#comment"),
        false,
        true,
        true,
        true,
    ),
    (
        b"subset",
        Form::Link(b"http://www.geneontology.org/formats/oboInOwl#inSubset"),
        false,
        true,
        true,
        true,
    ),
    (b"synonym", Form::Synonym, false, true, true, true),
    (b"xref", Form::Xref, false, true, true, true),
    (
        b"builtin",
        Form::Truth(b"http://www.geneontology.org/formats/oboInOwl#builtin"),
        false,
        true,
        true,
        false,
    ),
    (
        b"is_anti_symmetric",
        Form::Truth(b"http://www.geneontology.org/formats/oboInOwl#is_anti_symmetric"),
        false,
        false,
        true,
        false,
    ),
    (
        b"is_cyclic",
        Form::Truth(b"http://www.geneontology.org/formats/oboInOwl#is_cyclic"),
        false,
        false,
        true,
        false,
    ),
    (
        b"is_class_level",
        Form::Truth(b"http://www.geneontology.org/formats/oboInOwl#is_class_level"),
        false,
        false,
        true,
        false,
    ),
    (
        b"created_by",
        Form::Text(b"http://www.geneontology.org/formats/oboInOwl#created_by"),
        false,
        true,
        true,
        true,
    ),
    (
        b"creation_date",
        Form::Text(b"http://www.geneontology.org/formats/oboInOwl#creation_date"),
        false,
        true,
        true,
        true,
    ),
    (
        b"is_obsolete",
        Form::Truth(b"http://www.w3.org/2002/07/owl#deprecated"),
        false,
        true,
        true,
        true,
    ),
    (
        b"replaced_by",
        Form::Link(b"http://purl.obolibrary.org/obo/IAO_0100001"),
        false,
        true,
        true,
        true,
    ),
    (
        b"consider",
        Form::Link(b"http://www.geneontology.org/formats/oboInOwl#consider"),
        false,
        true,
        true,
        true,
    ),
    (b"property_value", Form::Property, true, true, true, true),
];
