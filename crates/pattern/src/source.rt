// The source of a pattern: the value that it takes apart.
ghost use Rattle.std.specs.Prelude.{◌≡◌};
ghost use Rattle.tree.specs.Look.{look_node};
ghost use Rattle.lowering.specs.Declarations.{is_name_of};
ghost use Rattle.pattern.specs.Source.{read_values, builder_of, held_in, read_of, place_read, after_read};

use tree::{bytes, kinds};

// What a read gives: the expression at a place, or the temporary of a cell with its stem.
#[derive(Clone, Copy)]
pub enum Read {
    Expression { left: usize, at: usize },
    Temporary { cell: usize, stem: u8 },
}

// Where what was read stands: the expression's position, or the temporary's cell.
pub fn place_of(read: Read) -> usize
    ensures { result ≡ place_read (read_values read) }
{
    match read {
        Read::Expression { left: _, at } => at,
        Read::Temporary { cell, stem: _ } => cell,
    }
}

// The source before its next read.
#[derive(Clone, Copy)]
pub enum ReferenceBuilder {
    // A name, which each read gives.
    Direct {
        left: usize,
        at: usize,
    },
    // Another expression, which is handed out once; then the temporary.
    Wanted {
        left: usize,
        at: usize,
        cell: usize,
        stem: u8,
    },
    // The temporary, which each read gives.
    Held {
        cell: usize,
        stem: u8,
    },
}

#[derive(Clone, Copy)]
pub struct Taken {
    pub read: Read,
    pub next: ReferenceBuilder,
}

// Whether the expression at a place is a Reference or a Temporary, which is read as often as wanted.
pub fn is_name(tree: &[u8], left: usize, at: usize) -> bool
    ensures { result ≡ is_name_of (look_node tree.now left at).value }
{
    if left == 0 {
        return false;
    }
    let kind = bytes::peek(tree, at);
    matches!(kind, kinds::REFERENCE | kinds::TEMPORARY)
}

impl ReferenceBuilder {
    // A name wants no temporary, unless one is forced.
    pub fn new(tree: &[u8], left: usize, at: usize, cell: usize, stem: u8, force: bool) -> Self
        ensures { result ≡ builder_of tree.now left at cell stem force }
    {
        if force || !is_name(tree, left, at) {
            return Self::Wanted {
                left,
                at,
                cell,
                stem,
            };
        }
        Self::Direct { left, at }
    }

    // A source that is a temporary already, made where its pattern stood: each read gives it.
    pub fn held(cell: usize, stem: u8) -> Self
        ensures { result ≡ held_in cell stem }
    {
        Self::Held { cell, stem }
    }

    // A read, and the builder for the next one.
    pub fn create_read_expression(self) -> Taken
        ensures { (read_values result.read ≡ read_of self) × (result.next ≡ after_read self) }
    {
        match self {
            Self::Direct { left, at } => Taken {
                read: Read::Expression { left, at },
                next: self,
            },
            Self::Wanted {
                left,
                at,
                cell,
                stem,
            } => Taken {
                read: Read::Expression { left, at },
                next: Self::Held { cell, stem },
            },
            Self::Held { cell, stem } => Taken {
                read: Read::Temporary { cell, stem },
                next: self,
            },
        }
    }
}
