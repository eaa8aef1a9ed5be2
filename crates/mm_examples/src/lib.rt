//! Tests that cross the crates, where no case does: inputs that are too long for one, and schedules that no command writes.
#![tactic(auto)]

#[cfg(test)]
mod hostile;
#[cfg(test)]
mod outside;
#[cfg(test)]
mod schedules;
