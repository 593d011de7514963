// How far a book has come.

/// Open to notices; drafted, with notes that nobody owes yet; or issued.
#[derive(Clone, Copy, PartialEq, Eq, Debug)]
pub enum Stage {
    Open,
    Drafted,
    Issued,
}
