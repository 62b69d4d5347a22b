// The nodes of an expression, which pass the checks.
ghost use Rattle.std.specs.Prelude.{◌≡◌, ◌<◌, ◌≤◌};
ghost use Rattle.expression.specs.Kinds.{byte_of};
ghost use Rattle.expression.specs.Table.{kind_of, left_of, right_of, count, check_of, WellFormed};

use super::nodes::Table;
use crate::Kind;

#[derive(Clone, Copy)]
pub(crate) struct Tree<'a> {
    pub nodes: &'a [u8],
    pub ghost formed: { WellFormed nodes.now },
}

impl<'a> Tree<'a> {
    pub(crate) fn new(nodes: &'a [u8]) -> Tree<'a>
        requires { check_of nodes.now ≡ Ok tt }
        ensures { result.nodes.now ≡ nodes.now }
    {
        Tree { nodes }
    }

    fn table(&self) -> Table<'a>
        ensures { result.nodes.now ≡ self.now.nodes.now }
    {
        Table { nodes: self.nodes }
    }

    pub(crate) fn node_count(&self) -> usize
        ensures { result ≡ count self.now.nodes.now }
    {
        self.table().node_count()
    }

    pub(crate) fn kind(&self, k: usize) -> Kind
        requires { k < count self.now.nodes.now }
        ensures { byte_of result ≡ kind_of self.now.nodes.now k }
    {
        self.table().kind(k)
    }

    pub(crate) fn left(&self, k: usize) -> usize
        requires { (k < count self.now.nodes.now) × (2 ≤ kind_of self.now.nodes.now k) }
        ensures { (result ≡ left_of self.now.nodes.now k) × (result < k) }
    {
        self.table().left(k)
    }

    pub(crate) fn right(&self, k: usize) -> usize
        requires { (k < count self.now.nodes.now) × (2 ≤ kind_of self.now.nodes.now k) }
        ensures { (result ≡ right_of self.now.nodes.now k) × (result < k) }
    {
        self.table().right(k)
    }
}
