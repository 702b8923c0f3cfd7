//! What no text of `view_cases` says of what is shown: scripts at random are shown and read back (`read_back`), and
//! writers fail where a case can't say it (`shown`).
#![tactic(auto)]

#[cfg(test)]
mod read_back;
#[cfg(test)]
mod same;
#[cfg(test)]
mod shown;
