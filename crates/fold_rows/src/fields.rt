//! The words of a line, and the fields among them, as `at=` begins one.

/// The first word, and what stands behind it.
pub fn first_word(line: &str) -> (&str, &str) {
    match line.split_once(' ') {
        Some(parts) => parts,
        None => (line, ""),
    }
}

/// What stands before the mark, and what behind it, where it stands there.
pub fn parted<'l>(line: &'l str, mark: &str) -> (&'l str, Option<&'l str>) {
    match line.split_once(mark) {
        Some((front, behind)) => (front, Some(behind)),
        None => (line, None),
    }
}

/// What the field of this name says, where there is one.
pub fn field<'l>(fields: &'l str, name: &str) -> Option<&'l str> {
    for word in fields.split(' ') {
        if let Some(said) = word.strip_prefix(name) {
            return Some(said);
        }
    }
    None
}

fn is_known(word: &str, names: &[&str]) -> bool {
    for name in names {
        if word.starts_with(*name) {
            return true;
        }
    }
    false
}

/// Whether each word is a field of one of these names.
pub fn are_known(fields: &str, names: &[&str]) -> bool {
    if fields.is_empty() {
        return true;
    }
    for word in fields.split(' ') {
        if !is_known(word, names) {
            return false;
        }
    }
    true
}
