//! What no text of `view_cases` says of scripts and of the judge.
//!
//! Records of replays at random are damaged, and the judge says of each what the definitions do, computed plainly
//! (`damaged`, `plain`). Writers and memory of `once_replay` fail where a case can't say it (`runs`), and replays have
//! their log of queues (`logs`).
#![tactic(auto)]

#[cfg(test)]
mod damaged;
#[cfg(test)]
mod logs;
#[cfg(test)]
mod plain;
#[cfg(test)]
mod runs;
#[cfg(test)]
mod same;
