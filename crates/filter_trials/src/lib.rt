//! Tests of the filters: the Test Anything Protocol and version 1 both ways, and filters over streams in memory. No program uses it.
//!
//! They use the public names of the rooms alone, and stand above them, so that the proofs of a room are not made once more for
//! its tests. Each file has the room in its name. `calls` and `sources` have what they share, and `slow_site` a file that is
//! read a little at a time.
#![tactic(auto)]

#[cfg(test)]
mod calls;
#[cfg(test)]
mod slow_site;
pub mod sources;
#[cfg(test)]
mod tests_filter_cli;
#[cfg(test)]
mod tests_filter_cli_events;
#[cfg(test)]
mod tests_filter_cli_export;
#[cfg(test)]
mod tests_filter_cli_files;
#[cfg(test)]
mod tests_filter_cli_inside;
#[cfg(test)]
mod tests_filter_cli_junit;
#[cfg(test)]
mod tests_filter_cli_loose;
#[cfg(test)]
mod tests_filter_cli_named;
#[cfg(test)]
mod tests_filter_cli_tap;
#[cfg(test)]
mod tests_filter_cli_trace;
#[cfg(test)]
mod tests_filter_cli_v1;
#[cfg(test)]
mod tests_filter_to_file;
#[cfg(test)]
mod tests_tap_bridge;
