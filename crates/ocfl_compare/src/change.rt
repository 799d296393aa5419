//! What changed at a place.
use ocfl_report::Code;
use ocfl_tree::Place;

/// What changed at a place between two reports, or that an object of a list is not there.
#[derive(Clone, Copy, Debug, PartialEq, Eq)]
pub enum Change {
    /// The report before has a line of an object at the place, and this one has none, nor any line
    /// below it.
    Gone,
    /// The same, but this report has lines below the place: the object is no longer declared.
    Undeclared,
    /// The report before has a line of a content file at the place, and this one has no line there,
    /// though it looked at the files of the object.
    FileGone,
    /// The same, but nobody looked: the object is gone or no longer declared, or its head stops.
    Unlooked,
    /// A finding of this code was not at the place, and is there now.
    Found(Code),
    /// A finding of this code was at the place, which was looked at, and is there no more.
    Repaired(Code),
    /// An object of a list has no line of an object at the place.
    Missing,
    /// Both reports note what the root inventory of the object is, and it is another one of the
    /// same version; or one of the versions is not known.
    Rewritten,
    /// The same, but of an older version.
    WentBack,
    /// The same, but of a newer version.
    NewVersion,
}

/// A change, and where it is.
#[derive(Debug, Drop, PartialEq, Eq)]
pub struct ChangeAt {
    pub place: Place,
    pub change: Change,
}
