//! Tests of what stands at the program's edge: the real folder, files, processes and streams, and the texts of `--help`. No
//! program uses it.
//!
//! They use the public names of the rooms alone, and stand above them, so that the proofs of a room are not made once more for
//! its tests. Each file has the room in its name. `homes`, `parts` and `shelves` have what they share.
#![tactic(auto)]

#[cfg(test)]
mod homes;
pub mod parts;
#[cfg(test)]
mod shelves;
#[cfg(test)]
mod tests_help_texts;
#[cfg(test)]
mod tests_real_outside_children;
#[cfg(test)]
mod tests_real_outside_files;
#[cfg(test)]
mod tests_real_outside_folder;
#[cfg(test)]
mod tests_real_outside_locks;
#[cfg(test)]
mod tests_real_outside_new_files;
#[cfg(test)]
mod tests_real_outside_streams;
