// The views of a pattern: an object with rest is replaced by a temporary; the outermost object is written without its rest, those in it are replaced.
#[derive(Clone, Copy)]
pub enum View {
    Replacing,
    Taking,
}
