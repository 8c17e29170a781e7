// The modes of a list: what is done for each of its items (`turn_of` of specs/Turns).
use crate::reaches::Reach;

// What is done below a pattern (`deep_of`): the declarators that are found, or the assignments of the objects with rest that are reached.
#[derive(Clone, Copy)]
pub enum Deep {
    Found,
    Reached(Reach),
}

#[derive(Clone, Copy)]
pub enum Mode {
    // Patterns: in the view that replaces, without the parts that are moved out, what is below them.
    Viewed,
    MovedOut,
    Below(Deep),

    // Properties: in a view, of an object whose rest is taken or not; the key among the excluded keys; the declarator of the temporary for the
    // key; what is below the value.
    Property(bool),
    ExcludedKey,
    KeyValue,
    Value(Deep),

    Declarator,

    // A parameter or a declarator whose pattern is moved out.
    Binding,
}
