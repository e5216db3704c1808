//! Expressions, however they are stored: what a look at one of them shows.
ghost use Rattle.std.specs.Prelude.{◌<◌};
ghost use Rattle.locality_core.specs.Shows.{IsOperand, Shows, operand_count};
ghost use Rattle.owl_axioms.specs.declared.expr.ClassExpr.{ClassExpr};

use owl_axioms::ClassExpr;
use rel_io::Iri;

/// What stands at the top of a tree: its constructor, with its names, numbers and parts, and of an intersection or a
/// union the number of operands.
#[derive(Clone, Copy)]
pub enum Look<'a, T> {
    /// owl:Thing.
    Thing,
    /// owl:Nothing.
    Nothing,
    /// A named class.
    Class(&'a Iri),
    /// The intersection of so many operands.
    And(usize),
    /// The union of so many operands.
    Or(usize),
    /// The complement of the part.
    Not(T),
    /// What has some filler by the property.
    Some(&'a Iri, T),
    /// What has only such fillers.
    All(&'a Iri, T),
    /// What has at least so many fillers.
    Min(u32, &'a Iri, T),
    /// What has at most so many fillers.
    Max(u32, &'a Iri, T),
    /// What has exactly so many fillers.
    Exact(u32, &'a Iri, T),
}

/// Where trees are stored. Each tree that is in a forest stands for one expression.
pub trait Forest {
    /// What names a tree.
    type Tree: Copy;

    /// The tree is in the forest.
    ghost has: { Self → Self.Tree → Type 0 };

    /// The expression that a tree of the forest stands for.
    ghost stands: { Self → Self.Tree → ClassExpr };

    /// The constructor of the tree, with its parts, which are in the forest and stand for those of the expression.
    fn look(&self, tree: Self::Tree) -> Look<'_, Self::Tree>
        requires { has self.now tree }
        ensures { Shows (has self.now) (stands self.now) (stands self.now tree) result };

    /// The operand of an intersection or a union at a place, from 0.
    fn operand(&self, tree: Self::Tree, at: usize) -> Self::Tree
        requires inside { has self.now tree }
        requires within { at < operand_count (stands self.now tree) }
        ensures inside { has self.now result }
        ensures stands { IsOperand (stands self.now tree) at (stands self.now result) };
}
