//! The tests of the machine's edge: a folder, files and an output of the machine, and a runtime over it that notes what it is asked for and has a trouble.
#![tactic(auto)]

#[cfg(test)]
mod calls;
#[cfg(test)]
mod folder;
#[cfg(test)]
mod machine;
#[cfg(test)]
mod troubles;
#[cfg(test)]
mod watched;
