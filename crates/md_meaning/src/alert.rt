// The kinds of alerts.

/// The kind of an alert: a block quote with the marker of its kind on its first line.
#[derive(Clone, Copy, Debug, PartialEq, Eq)]
pub enum AlertKind {
    Note,
    Tip,
    Important,
    Warning,
    Caution,
}
