/// Why the names that are given are not those of a script.
#[derive(Clone, Copy, Debug, PartialEq, Eq)]
pub enum NameFault {
    /// The target is no model of the script.
    Target,
    /// The place of a name, among those that are given, that the script lacks.
    Extra(usize),
    /// The place of a name, among those of the script, that is not given.
    Missing(usize),
}
