//! The rows of the table of verdicts: what each constructor makes of what is known of its parts.
ghost use Rattle.std.specs.Prelude.{◌≡◌, if◌then◌else◌};
ghost use Rattle.locality_tables.specs.Verdict.{all_finding, class_finding, exact_finding, exchanged, many_finding, max_finding, min_finding, one_finding, role_finding, some_finding};
ghost use Rattle.locality_tables.specs.declared.finding.Finding.TheVariants as finding;
ghost use Rattle.owl_axioms.specs.Signature.{scope_of};
ghost use Rattle.owl_axioms.specs.declared.name.Kind.TheVariants as kind;

use crate::Locality;
use locality_tables::{ClassFill, Finding, RoleFinding};
use owl_axioms::{Kind, Sig};
use rel_io::Iri;

/// Empty for Full, and Full for Empty.
pub(crate) fn exchange(c: Finding) -> Finding
    ensures { result ≡ exchanged c }
{
    match c {
        Finding::Empty => Finding::Full,
        Finding::Full => Finding::Empty,
        Finding::Unknown => Finding::Unknown,
    }
}

/// What has some filler, by what is known of the role and of the filler.
pub(crate) fn some_of(r: RoleFinding, c: Finding) -> Finding
    ensures { result ≡ some_finding r c }
{
    if r.is_empty() || c == Finding::Empty {
        Finding::Empty
    } else if r.is_full() && c == Finding::Full {
        Finding::Full
    } else if r.is_identity() {
        c
    } else {
        Finding::Unknown
    }
}

/// What has only such fillers.
pub(crate) fn all_of(r: RoleFinding, c: Finding) -> Finding
    ensures { result ≡ all_finding r c }
{
    if r.is_empty() || c == Finding::Full {
        Finding::Full
    } else if r.is_full() && c == Finding::Empty {
        Finding::Empty
    } else if r.is_identity() {
        c
    } else {
        Finding::Unknown
    }
}

/// What has at least two fillers.
pub(crate) fn many_of(r: RoleFinding, c: Finding) -> Finding
    ensures { result ≡ many_finding r c }
{
    if r.is_empty() || r.is_identity() || c == Finding::Empty {
        Finding::Empty
    } else {
        Finding::Unknown
    }
}

/// What has at least so many fillers.
pub(crate) fn min_of(n: u32, r: RoleFinding, c: Finding) -> Finding
    ensures { result ≡ min_finding n r c }
{
    match n {
        0 => Finding::Full,
        1 => some_of(r, c),
        _ => many_of(r, c),
    }
}

/// What has at most so many fillers.
pub(crate) fn max_of(n: u32, r: RoleFinding, c: Finding) -> Finding
    ensures { result ≡ max_finding n r c }
{
    match n {
        0 => exchange(some_of(r, c)),
        _ => exchange(many_of(r, c)),
    }
}

/// What has exactly so many fillers.
pub(crate) fn exact_of(n: u32, r: RoleFinding, c: Finding) -> Finding
    ensures { result ≡ exact_finding n r c }
{
    match n {
        0 => exchange(some_of(r, c)),
        1 => one_of(r, c),
        _ => many_of(r, c),
    }
}

/// What has exactly one filler.
fn one_of(r: RoleFinding, c: Finding) -> Finding
    ensures { result ≡ one_finding r c }
{
    if r.is_empty() || c == Finding::Empty {
        Finding::Empty
    } else if r.is_identity() {
        c
    } else {
        Finding::Unknown
    }
}

/// What is known of a class: nothing of one inside, and otherwise how it is filled.
pub(crate) fn class_of<L: Locality>(sig: &Sig, name: &Iri) -> Finding
    ensures { result ≡ (if scope_of sig.now kind.Class name.now then finding.Unknown else class_finding L.CLASSES) }
{
    if sig.has(Kind::Class, name) {
        Finding::Unknown
    } else {
        filled_class::<L>()
    }
}

/// What an outside class is.
fn filled_class<L: Locality>() -> Finding
    ensures { result ≡ class_finding L.CLASSES }
{
    match L::CLASSES {
        ClassFill::Empty => Finding::Empty,
        ClassFill::Full => Finding::Full,
    }
}

/// What is known of a role: nothing of one inside, and otherwise how it is filled.
pub(crate) fn role_of<L: Locality>(sig: &Sig, name: &Iri) -> RoleFinding
    ensures { result ≡ role_finding L.ROLES (scope_of sig.now) name.now }
{
    if sig.has(Kind::Role, name) {
        RoleFinding::Inside
    } else {
        RoleFinding::Filled(L::ROLES)
    }
}
