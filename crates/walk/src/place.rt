// Where a node stands.
ghost use Rattle.std.specs.Prelude.{◌≡◌, true, false, not, ◌||◌, ◌&&◌, eqb, ℕ, ◌-◌};
ghost use Rattle.tree.specs.Tree.{Fields};
ghost use Rattle.tree.specs.Tree.Node.{node};
ghost use Rattle.lowering.specs.Collect.{is_container};
ghost use Rattle.lowering.specs.Walk.{opens_scope};
ghost use Rattle.direct.specs.Emit as emit;
ghost use Rattle.direct.specs.Emit.{inner, unused, below, marking};
ghost use Rattle.walk.specs.Whole.{place_of, place_with};

use crate::kinds;

// Where a node stands: at root, all of an expression statement, the mark of the containing statement, levels left.
#[derive(Clone, Copy)]
pub struct Place {
    pub root: bool,
    pub statement: bool,
    pub mark: usize,
    pub left: usize,
}

// Whether the scope of a place is the root. This is the one lookup: it is made where the walk comes to an assignment or a declaration, and where
// one is put into a body. The code for its rests, keys and parts is told the answer.
pub fn at_root(c: Place) -> bool
    ensures { result ≡ (place_of c).root }
{
    c.root
}

// Whether a field of a node lies in a scope that the node opens; of a Switch the cases alone do.
fn opens_scope(kind: usize, field: usize) -> bool
    ensures { result ≡ opens_scope kind field }
{
    match kind {
        kinds::BLOCK
        | kinds::FOR
        | kinds::FOR_IN
        | kinds::FOR_OF
        | kinds::CATCH
        | kinds::FUNCTION
        | kinds::ARROW
        | kinds::CLASS
        | kinds::STATIC_BLOCK => true,
        kinds::SWITCH => field == 2,
        _ => false,
    }
}

pub fn container(kind: usize) -> bool
    ensures { result ≡ is_container kind }
{
    matches!(
        kind,
        kinds::PROGRAM | kinds::BLOCK | kinds::FUNCTION_BODY | kinds::STATIC_BLOCK | kinds::CASE
    )
}

// Whether the part of a node is all of an expression statement.
fn whole(kind: usize, statement: bool) -> bool
    ensures { result ≡ eqb kind 3 || (eqb kind 31 && statement) }
{
    kind == kinds::EXPRESSION_STATEMENT || (kind == kinds::PARENTHESISED && statement)
}

// The place of a field of a node; that of all of them, if the node is no Switch.
pub fn parts_of(c: Place, kind: usize, field: usize, left: usize) -> Place
    ensures { ((at : ℕ) (fs : Fields) → place_of result ≡ below (place_of c) (node at kind fs) field) × (result.left ≡ left) }
{
    let opens = opens_scope(kind, field);
    Place {
        root: c.root && !opens,
        statement: whole(kind, c.statement),
        left,
        ..c
    }
}

// The same place within the statement with a mark.
pub fn marked(c: Place, mark: usize) -> Place
    ensures { (place_of result ≡ marking (place_of c) mark) × (result.left ≡ c.left) }
{
    Place { mark, ..c }
}

pub fn less(n: usize) -> usize
    ensures { result ≡ n - 1 }
{
    n.saturating_sub(1)
}

// The place of the parts of an expression.
pub fn inside(c: Place, left: usize) -> Place
    ensures { (place_of result ≡ inner (place_of c)) × (result.left ≡ left) }
{
    Place {
        statement: false,
        left,
        ..c
    }
}

// The same place with other levels left.
pub fn under(c: Place, left: usize) -> Place
    ensures { (place_of result ≡ place_of c) × (result.left ≡ left) }
{
    Place { left, ..c }
}

// The place of the parts of an expression, and the same place with other levels left, told whether they are at root.
pub fn told_inside(c: Place, root: bool, left: usize) -> Place
    ensures { (place_of result ≡ inner (place_with root c)) × (result.left ≡ left) }
{
    Place {
        root,
        statement: false,
        left,
        ..c
    }
}

pub fn told_under(c: Place, root: bool, left: usize) -> Place
    ensures { (place_of result ≡ place_with root c) × (result.left ≡ left) }
{
    Place { root, left, ..c }
}

// A scope's place; a statement's, all of an expression statement.
pub fn scoped(c: Place, left: usize) -> Place
    ensures { (place_of result ≡ emit.scoped (place_of c)) × (result.left ≡ left) }
{
    Place {
        root: false,
        statement: false,
        left,
        ..c
    }
}

pub fn statement(c: Place, mark: usize) -> Place
    ensures { (place_of result ≡ unused (marking (place_of c) mark)) × (result.left ≡ c.left) }
{
    Place {
        statement: true,
        mark,
        ..c
    }
}
